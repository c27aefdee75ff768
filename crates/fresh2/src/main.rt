// Makes a fresh volume of edition 2 in a new file: `fresh2 FILE P C M N R`. The first R units are
// reserved.
#![tactic(auto)]

fn main(rt: HostRuntime) {
    files::commands::fresh2(rt);
}
