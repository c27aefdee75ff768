// Converts an image of edition 1 to edition 2, in a new file: `convert_image IMAGE NEWFILE`.
#![tactic(auto)]

fn main(rt: HostRuntime) {
    files::commands::convert_image(rt);
}
