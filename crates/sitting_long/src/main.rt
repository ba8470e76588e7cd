// A paper of 65,537 bytes, one more than the longest: refusal 9, though every record could be read.
#![tactic(auto)]

fn main(rt: HostRuntime) {
    desk::run_sitting(&rt);
}
