// A paper on standard input, its lines on standard output.
#![tactic(auto)]

fn main(rt: HostRuntime) {
    desk::run_sitting(&rt);
}
