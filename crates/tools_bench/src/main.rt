// The tool `bench`, on the printed sitting's card.
#![tactic(auto)]

fn main(rt: HostRuntime) {
    toolbox::run_tool(&rt);
}
