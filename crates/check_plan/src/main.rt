// Says whether a plan keeps the rules:
// `check_plan IMAGE PLANFILE write CHUNK SIZE | discard CHUNK`.
#![tactic(auto)]

fn main(rt: HostRuntime) {
    plans::commands::check_plan(rt);
}
