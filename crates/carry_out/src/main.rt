// Carries out the first N steps of a plan on an image file:
// `carry_out IMAGE PLANFILE N write CHUNK SIZE | discard CHUNK`.
#![tactic(auto)]

fn main(rt: HostRuntime) {
    plans::commands::carry_out(rt);
}
