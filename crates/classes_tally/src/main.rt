// The form `tally`, on a class of 201 papers.
#![tactic(auto)]

fn main(rt: HostRuntime) {
    class_desk::run_class(&rt);
}
