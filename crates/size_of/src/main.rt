// Prints the stored size of a chunk: `size_of IMAGE CHUNK`.
#![tactic(auto)]

fn main(rt: HostRuntime) {
    views::commands::size_of(rt);
}
