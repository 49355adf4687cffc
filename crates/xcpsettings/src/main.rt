#![tactic(auto)]

fn main(rt: HostRuntime) {
    settingprogram::run(&rt);
}
