// Makes a fresh volume in a new file: `fresh FILE P C M N`.
#![tactic(auto)]

fn main(rt: HostRuntime) {
    files::commands::fresh(rt);
}
