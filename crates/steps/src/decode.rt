// A step from its 16 bytes.
ghost use Rattle.std.specs.Prelude.{◌≡◌, ◌≤◌, ◌<◌, length};
ghost use Rattle.steps.specs.Steps.{whole_steps, decode_fields, decode_at};

use crate::values::value_of;
use crate::{DATA, FENCE, LINK, MAP, STEP_BYTES, Step};

// The four fields of a step.
#[tactic(auto, unfolding(crate::specs::Steps::decode_fields))]
fn decode_fields(kind: u32, a: u32, b: u32, d: u32) -> Option<Step>
    ensures { result ≡ decode_fields kind a b d }
{
    match (kind, a, b, d) {
        (DATA, unit, piece, write) => Some(Step::Data { unit, piece, write }),
        (MAP, map, word, d) => Some(Step::Map {
            map,
            word,
            value: value_of(d),
        }),
        (LINK, chunk, 0, d) => Some(Step::Link {
            chunk,
            value: value_of(d),
        }),
        (FENCE, 0, 0, 0) => Some(Step::Fence),
        _ => None,
    }
}

// Step i of a plan.
#[tactic(auto, unfolding(crate::specs::Steps::decode_at))]
pub(crate) fn decode_at(plan: &[u8], i: usize) -> Option<Step>
    requires { i < whole_steps plan.now }
    ensures { result ≡ decode_at plan.now i }
{
    let at = STEP_BYTES * i;
    let kind = words::get_u32(plan, at);
    let a = words::get_u32(plan, at + 4);
    let b = words::get_u32(plan, at + 8);
    let d = words::get_u32(plan, at + 12);
    decode_fields(kind, a, b, d)
}
