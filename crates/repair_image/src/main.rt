// Repairs an image file in place, and prints the chunks that were unlinked, one a line:
// `repair_image IMAGE`.
#![tactic(auto)]

fn main(rt: HostRuntime) {
    files::commands::repair_image(rt);
}
