// The lowest rule that a plan breaks, as the refusal.
ghost use Rattle.std.specs.Prelude.{◌≡◌, ℕ, ◌^◌, ◌≤◌, ◌<◌, List, take};
ghost use Rattle.bitset.specs.Bits.{in_set};
ghost use Rattle.layout.specs.Layout.{max_chunk_bytes};
ghost use Rattle.layout.specs.Shaped.{Limits};
ghost use Rattle.steps.specs.Steps.{size_of, need_of};
ghost use Rattle.rules.specs.Rules.{known, broken, broken_rule};
ghost use Rattle.pass.specs.Passes.{known_by};

use bitset::lowest;
use image::Free;
use layout::geometry::{head, map_words};
use layout::{MAX_CHUNK_UNITS, Refusal, Shape};
use pass::Due;
use pass::seeing::see_all;
use pass::verdicts::{lowest_broken, unseen};
use steps::Request;
use steps::requests::{chunk_of, need_of, size_of};

// The refusal with the lowest rule broken, where the units for the pieces are given: the plan is gone over once.
fn broken_on(
    g: Shape,
    dealt: &[u32],
    maps: &[u64],
    mapped: bool,
    request: Request,
    plan: &[u8],
) -> Result<(), Refusal>
    requires { Limits g × (size_of request ≤ max_chunk_bytes) }
    ensures { (free : List ℕ) → dealt.now ≡ take (need_of request) free
        → result ≡ broken (broken_rule (known_by g free (in_set maps.now) mapped) request plan.now) }
{
    let due = Due {
        chunk: chunk_of(request),
        heads: head(g),
        size: size_of(request),
        dealt,
    };
    let start = unseen(need_of(request), map_words(g), mapped, request);
    let Some(seen) = see_all(plan, g, &due, start) else {
        return Err(Refusal::BadPlan(1));
    };
    lowest_broken(maps, mapped, request, seen)
}

// The refusal with the lowest rule broken, for a shape, any sets of free units and maps, and whether the request's chunk is mapped.
pub fn broken_rule(
    g: Shape,
    free: &Free,
    mapped: bool,
    request: Request,
    plan: &[u8],
) -> Result<(), Refusal>
    requires { Limits g × (size_of request ≤ max_chunk_bytes) }
    ensures { result ≡ broken (broken_rule (known g (in_set free.now.units.now) (in_set free.now.maps.now) mapped) request plan.now) }
{
    let k = need_of(request) as usize;
    let mut dealt = [0u32; MAX_CHUNK_UNITS as usize];
    let count = lowest(free.units, g.n, &mut dealt[..k]);
    broken_on(g, &dealt[..count], free.maps, mapped, request, plan)
}
