// The tools beside the sitting: the first argument names one.
#![tactic(auto)]

fn main(rt: HostRuntime) {
    toolbox::run_tool(&rt);
}
