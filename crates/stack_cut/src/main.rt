// A stack that ends one byte before its second paper does.
#![tactic(auto)]

fn main(rt: HostRuntime) {
    desk::run_stack(&rt);
}
