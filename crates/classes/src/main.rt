// The sheet of a class: the first argument names its form.
#![tactic(auto)]

fn main(rt: HostRuntime) {
    class_desk::run_class(&rt);
}
