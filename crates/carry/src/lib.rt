// Carrying a plan out on the image.
#![tactic(auto)]

ghost use Rattle.std.specs.Prelude.{◌≡◌, true, ◌+◌, ◌*◌, ◌^◌, ◌≤◌, ◌<◌, length};
ghost use Rattle.bitset.specs.Bits.{in_set};
ghost use Rattle.layout.specs.Shaped.{On};
ghost use Rattle.layout.specs.Layout.{put_word};
ghost use Rattle.steps.specs.Steps.{word_of, whole_steps};
ghost use Rattle.rules.specs.Rules.{in_range, whole_in_range, rule1, known};
ghost use Rattle.carry.specs.Carry.{carry as carry_one, carried, carry_in, left_by, carry_answer, carry_image};
ghost use Rattle.carry.specs.Carrying.{carry_decoded};

use checker::check::judge;
use image::{Free, Image, MAP_SET_WORDS, UNIT_SET_WORDS};
use layout::geometry::map_word_place;
use layout::{Refusal, Shape};
use loader::load::load_into;
use steps::reading::step_at;
use steps::requests::chunk_of;
use steps::values::word_of;
use steps::{Request, STEP_BYTES, Step};

// Word `place` of the image is stored.
fn store(image: &mut [u8], place: usize, value: Option<u32>)
    requires { 8 * place + 8 ≤ length image.old }
    ensures { image.new ≡ put_word image.old place (word_of value) }
{
    let word = word_of(value);
    words::put_u64(image, 8 * place, word);
}

// One step is carried out: a MAP or LINK word is stored.
fn carry_step(image: &mut [u8], g: Shape, step: Step)
    requires on { On g image.old }
    requires step_value { in_range g step ≡ true }
    ensures { image.new ≡ carry_one image.old step }
{
    match step {
        Step::Data { .. } | Step::Fence => {}
        Step::Map { map, word, value } => {
            store(image, map_word_place(g, map as usize, word as usize), value);
        }
        Step::Link { chunk, value } => store(image, chunk as usize, value),
    }
}

// What the bytes of a step say is carried out.
fn carry_decoded(image: &mut [u8], g: Shape, d: Option<Step>)
    requires on { On g image.old }
    requires d_value { whole_in_range g d ≡ true }
    ensures { image.new ≡ carry_decoded image.old d }
{
    match d {
        Some(step) => carry_step(image, g, step),
        None => {}
    }
}

// The first `n` steps of a plan that keeps rule 1 are carried out.
fn carry_steps(image: &mut [u8], g: Shape, plan: &[u8], n: usize)
    requires on { On g image.old }
    requires plan_value { (rule1 g plan.now ≡ true) × (n ≤ whole_steps plan.now) }
    ensures { image.new ≡ carried image.old plan.now n }
{
    for i in 0..n {
        carry_decoded(image, g, step_at(plan, i));
    }
}

// Checks a plan and carries its first `n` steps out, for a shape, any sets of free units and maps, and whether the request's chunk is mapped: refusals 7, 8
// and 11.
pub fn carry_in(
    image: &mut [u8],
    g: Shape,
    free: &Free,
    mapped: bool,
    request: Request,
    plan: &[u8],
    n: u64,
) -> Result<(), Refusal>
    requires on { On g image.old }
    ensures value { result ≡ carry_in (known g (in_set free.now.units.now) (in_set free.now.maps.now) mapped) request plan.now n }
    ensures image_after { image.new
        ≡ left_by (carry_in (known g (in_set free.now.units.now) (in_set free.now.maps.now) mapped) request plan.now n)
        image.old plan.now n }
{
    let count = (plan.len() / STEP_BYTES) as u64;
    if count < n {
        return Err(Refusal::Range);
    }
    judge(g, free, mapped, request, plan)?;
    carry_steps(image, g, plan, n as usize);
    Ok(())
}

// Checks a plan and carries its first `n` steps out on the image: refusals 1 to 8 and 11.
pub fn carry(image: &mut [u8], request: Request, plan: &[u8], n: u64) -> Result<(), Refusal>
    ensures value { result ≡ carry_answer image.old request plan.now n }
    ensures image_after { image.new ≡ carry_image image.old request plan.now n }
{
    let mut units = [0u64; UNIT_SET_WORDS];
    let mut maps = [0u64; MAP_SET_WORDS];
    let shape = load_into(image, &mut units, &mut maps)?;
    let mapped = Image {
        bytes: image,
        shape,
    }
    .is_mapped(chunk_of(request));
    let free = Free {
        units: &units,
        maps: &maps,
    };
    carry_in(image, shape, &free, mapped, request, plan, n)
}
