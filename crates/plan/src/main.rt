// Plans a request into a new file, and prints the plan:
// `plan IMAGE PLANFILE write CHUNK SIZE | discard CHUNK`.
#![tactic(auto)]

fn main(rt: HostRuntime) {
    plans::commands::plan(rt);
}
