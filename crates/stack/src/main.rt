// A stack of papers on standard input, each behind its 4-byte length; for each its lines and then
// an empty line on standard output.
#![tactic(auto)]

fn main(rt: HostRuntime) {
    desk::run_stack(&rt);
}
