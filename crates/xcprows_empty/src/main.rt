#![tactic(auto)]

fn main(rt: HostRuntime) {
    rowprogram::run(&rt);
}
