// Prints what an image file holds: `list FILE`.
#![tactic(auto)]

fn main(rt: HostRuntime) {
    views::commands::list(rt);
}
