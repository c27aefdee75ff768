// The 16 bytes of a step.
ghost use Rattle.std.specs.Prelude.{◌≡◌, [], ◌∷◌, ◌+◌, ◌≤◌, ◌<◌, length};
ghost use Rattle.std.proofs.lemmas.List.Edits.{sets};
ghost use Rattle.steps.specs.Steps.{field_bytes, whole_steps, put_steps};

use crate::values::field_of;
use crate::{DATA, FENCE, LINK, MAP, STEP_BYTES, Step};

// Four fields are stored from byte `at`.
fn put_fields(out: &mut [u8], at: usize, kind: u32, a: u32, b: u32, d: u32)
    requires { at + 16 ≤ length out.old }
    ensures { out.new ≡ sets out.old at (field_bytes kind a b d) }
{
    words::put_u32(out, at, kind);
    words::put_u32(out, at + 4, a);
    words::put_u32(out, at + 8, b);
    words::put_u32(out, at + 12, d);
}

// Step i of a plan is stored.
pub fn put_step(out: &mut [u8], i: usize, step: Step)
    requires { i < whole_steps out.old }
    ensures { out.new ≡ put_steps out.old i (step ∷ []) }
{
    let at = STEP_BYTES * i;
    match step {
        Step::Data { unit, piece, write } => put_fields(out, at, DATA, unit, piece, write),
        Step::Map { map, word, value } => put_fields(out, at, MAP, map, word, field_of(value)),
        Step::Link { chunk, value } => put_fields(out, at, LINK, chunk, 0, field_of(value)),
        Step::Fence => put_fields(out, at, FENCE, 0, 0, 0),
    }
}
