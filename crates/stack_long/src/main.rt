// A stack with papers that are too long, one of them going on behind what the buffer holds: each is
// answered `0 9` and skipped, and the paper behind it is answered. The last of them is cut short.
#![tactic(auto)]

fn main(rt: HostRuntime) {
    desk::run_stack(&rt);
}
