// The public check of a plan against an image.
ghost use Rattle.std.specs.Prelude.{◌≡◌, ◌^◌, ◌<◌};
ghost use Rattle.bitset.specs.Bits.{in_set};
ghost use Rattle.layout.specs.Shaped.{Limits};
ghost use Rattle.rules.specs.Rules.{known, judged, checked};

use crate::broken::broken_rule;
use image::{Free, Image, MAP_SET_WORDS, UNIT_SET_WORDS};
use layout::{Refusal, Shape};
use loader::load::load_into;
use steps::Request;
use steps::requests::{chunk_of, good_size};

// The answer for a shape, any sets of free units and maps, and whether the request's chunk is mapped: refusals 7, 8 and 11.
pub fn judge(
    g: Shape,
    free: &Free,
    mapped: bool,
    request: Request,
    plan: &[u8],
) -> Result<(), Refusal>
    requires { Limits g }
    ensures { result ≡ judged (known g (in_set free.now.units.now) (in_set free.now.maps.now) mapped) request plan.now }
{
    if u64::from(g.c) <= chunk_of(request) {
        return Err(Refusal::Range);
    }
    if !good_size(g, request) {
        return Err(Refusal::Size);
    }
    broken_rule(g, free, mapped, request, plan)
}

// Whether a plan keeps the five rules for an image and a request: refusals 1 to 8 and 11.
pub fn check(image: &[u8], request: Request, plan: &[u8]) -> Result<(), Refusal>
    ensures { result ≡ checked image.now request plan.now }
{
    let mut units = [0u64; UNIT_SET_WORDS];
    let mut maps = [0u64; MAP_SET_WORDS];
    let shape = load_into(image, &mut units, &mut maps)?;
    let image = Image {
        bytes: image,
        shape,
    };
    let free = Free {
        units: &units,
        maps: &maps,
    };
    judge(
        shape,
        &free,
        image.is_mapped(chunk_of(request)),
        request,
        plan,
    )
}
