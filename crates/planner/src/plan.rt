// The planner's own plans.
ghost use Rattle.std.specs.Prelude.{◌≡◌, Bool, cond, [], ◌∷◌, ℕ, ◌+◌, ◌*◌, ◌^◌, ◌≤◌, ◌<◌, length, slice_get};
ghost use Rattle.bitset.specs.Bits.{in_set, limit, members_below};
ghost use Rattle.layout.specs.Layout.{max_chunk_units, max_map_words, units_for, head, map_words};
ghost use Rattle.layout.specs.Shaped.{Limits};
ghost use Rattle.steps.specs.Steps.{step_bytes, put_steps};
ghost use Rattle.rules.specs.Rules.{max_steps, known};
ghost use Rattle.planner.specs.Planner.{data_steps, value_for, map_steps, link_steps, write_steps, plan_of};
ghost use Rattle.planner.specs.Planner.{if_room, plan_good, plan_in, plan_answer, out_in, plan_out};
ghost use Rattle.planner.specs.Planning.{Leaves};

use bitset::lowest;
use image::{Free, Image, MAP_SET_WORDS, UNIT_SET_WORDS};
use layout::geometry::{head, is_size, map_words, units_for};
use layout::{MAX_CHUNK_UNITS, Refusal, Shape};
use loader::load::{check_image, load_into};
use steps::encode::put_step;
use steps::{Request, STEP_BYTES, Step};

// The steps of a write but its DATA and MAP steps: FENCE, LINK, FENCE.
const LINK_STEPS: usize = 3;

// The steps of a discard of a mapped chunk: LINK, FENCE.
const DISCARD_STEPS: usize = 2;

// The map that a write fills: its number, how many words it has, the size in the first `heads` of them, and then the units of the pieces.
#[derive(Clone, Copy)]
struct Filled<'a> {
    map: u32,
    words: usize,
    heads: usize,
    size: u32,
    units: &'a [u32],
}

impl Filled<'_> {
    // What word `j` holds.
    #[tactic(auto, unfolding(layout::specs::Layout::after_head, crate::specs::Planner::unit_value))]
    fn value(&self, j: usize) -> Option<u32>
        ensures { result ≡ value_for self.now.heads self.now.size self.now.units.now j }
    {
        if j < self.heads {
            Some(self.size)
        } else {
            self.units.get(j - self.heads).copied()
        }
    }
}

// DATA for as many pieces as there are units, from step `at` on.
fn put_data(out: &mut [u8], at: usize, units: &[u32])
    requires { (length units.now ≤ max_chunk_units) × (step_bytes * (at + length units.now) ≤ length out.old) }
    ensures { out.new ≡ put_steps out.old at (data_steps units.now) }
{
    for (j, unit) in units.iter().enumerate() {
        let step = Step::Data {
            unit: *unit,
            piece: j as u32,
            write: 0,
        };
        put_step(out, at + j, step);
    }
}

// MAP for the words of a map, from step `at` on.
fn put_maps(out: &mut [u8], at: usize, filled: &Filled)
    requires { (filled.now.words ≤ max_map_words) × (step_bytes * (at + filled.now.words) ≤ length out.old) }
    ensures { out.new ≡ put_steps out.old at
        (map_steps filled.now.heads filled.now.size filled.now.map filled.now.units.now filled.now.words) }
{
    for j in 0..filled.words {
        let step = Step::Map {
            map: filled.map,
            word: j as u32,
            value: filled.value(j),
        };
        put_step(out, at + j, step);
    }
}

// FENCE, LINK to a map, FENCE, from step `at` on.
fn put_link(out: &mut [u8], at: usize, chunk: u32, map: u32)
    requires { step_bytes * (at + 3) ≤ length out.old }
    ensures { out.new ≡ put_steps out.old at (link_steps chunk map) }
{
    put_step(out, at, Step::Fence);
    put_step(
        out,
        at + 1,
        Step::Link {
            chunk,
            value: Some(map),
        },
    );
    put_step(out, at + 2, Step::Fence);
}

// The steps of a write on the units of a map.
fn put_write(out: &mut [u8], filled: &Filled, chunk: u32)
    requires { (length filled.now.units.now ≤ max_chunk_units) × (filled.now.words ≤ max_map_words)
        × (step_bytes * (length filled.now.units.now + filled.now.words + 3) ≤ length out.old) }
    ensures { out.new ≡ put_steps out.old 0
        (write_steps filled.now.heads filled.now.size filled.now.units.now filled.now.map filled.now.words chunk) }
{
    let k = filled.units.len();
    put_data(out, 0, filled.units);
    put_maps(out, k, filled);
    put_link(out, k + filled.words, chunk, filled.map);
}

// So many steps, if there is room for them: refusal 10.
fn room_for(out: &[u8], steps: usize) -> Result<u32, Refusal>
    requires { steps ≤ max_steps }
    ensures { result ≡ if_room (length out.now) steps }
{
    if out.len() < STEP_BYTES * steps {
        return Err(Refusal::Small((STEP_BYTES * steps) as u32));
    }
    Ok(steps as u32)
}

// The plan of a write on these units and a map: refusal 10.
fn write_to(
    g: Shape,
    units: &[u32],
    map: u32,
    chunk: u32,
    size: u32,
    out: &mut [u8],
) -> Result<u32, Refusal>
    requires limits { Limits g }
    requires units_len_bound { length units.now ≤ max_chunk_units }
    ensures { Leaves (if_room (length out.old) (length units.now + map_words g + 3))
        (write_steps (head g) size units.now map (map_words g) chunk) out.old result out.new }
{
    let filled = Filled {
        map,
        words: map_words(g) as usize,
        heads: head(g) as usize,
        size,
        units,
    };
    let steps = room_for(out, units.len() + filled.words + LINK_STEPS)?;
    put_write(out, &filled, chunk);
    Ok(steps)
}

// The lowest map of a set below `end`.
fn lowest_map(maps: &[u64], end: u32) -> Option<u32>
    requires { limit maps.now < 2 ^ 64 }
    ensures { result ≡ slice_get (members_below maps.now end) 0 }
{
    let mut found = [0u32; 1];
    let count = lowest(maps, end, &mut found);
    (count == 1).then_some(found[0])
}

// The plan of a write of a good size, on the lowest free units, stored in `chosen`, and the lowest free map: refusals 9 and 10.
fn write_lowest(
    g: Shape,
    free: &Free,
    chosen: &mut [u32],
    chunk: u32,
    size: u32,
    out: &mut [u8],
) -> Result<u32, Refusal>
    requires limits { Limits g }
    requires maps_bound { limit free.now.maps.now < 2 ^ 64 }
    requires chosen_len { (length chosen.old ≡ units_for size) × (length chosen.old ≤ max_chunk_units) }
    ensures { (m : Bool) →
        Leaves (plan_good (known g (in_set free.now.units.now) (in_set free.now.maps.now) m) (Request.Write chunk size) (length out.old))
        (plan_of (known g (in_set free.now.units.now) (in_set free.now.maps.now) m) (Request.Write chunk size)) out.old result out.new }
{
    let count = lowest(free.units, g.n, chosen);
    if count < chosen.len() {
        return Err(Refusal::NoRoom(count as u32));
    }
    let Some(map) = lowest_map(free.maps, g.m) else {
        return Err(Refusal::NoRoom(0));
    };
    write_to(g, chosen, map, chunk, size, out)
}

// The plan of a write, where the shape and any sets of free units and maps are known: refusals 7 to 10.
#[tactic(auto, unfolding(crate::specs::Planner::plan_in))]
pub fn write_on(
    g: Shape,
    free: &Free,
    chunk: u64,
    size: u64,
    out: &mut [u8],
) -> Result<u32, Refusal>
    requires limits { Limits g }
    requires maps_bound { limit free.now.maps.now < 2 ^ 64 }
    ensures { (m : Bool) →
        (result ≡ plan_in (known g (in_set free.now.units.now) (in_set free.now.maps.now) m) (Request.Write chunk size) (length out.old))
        × (out.new ≡ out_in (known g (in_set free.now.units.now) (in_set free.now.maps.now) m) (Request.Write chunk size) out.old) }
{
    if u64::from(g.c) <= chunk {
        return Err(Refusal::Range);
    }
    if !is_size(g, size) {
        return Err(Refusal::Size);
    }
    let k = units_for(size) as usize;
    let mut chosen = [0u32; MAX_CHUNK_UNITS as usize];
    write_lowest(g, free, &mut chosen[..k], chunk as u32, size as u32, out)
}

// The plan of a discard of a chunk in range: refusal 10.
fn put_discard(mapped: bool, chunk: u32, out: &mut [u8]) -> Result<u32, Refusal>
    ensures { Leaves (if_room (length out.old) (cond mapped 2 0)) (cond mapped (Step.Link chunk None ∷ Step.Fence ∷ []) []) out.old
        result out.new }
{
    if !mapped {
        return Ok(0);
    }
    let steps = room_for(out, DISCARD_STEPS)?;
    put_step(out, 0, Step::Link { chunk, value: None });
    put_step(out, 1, Step::Fence);
    Ok(steps)
}

// The plan of a discard, where the shape and whether the chunk is mapped are known: refusals 7 and 10.
#[tactic(auto, unfolding(crate::specs::Planner::plan_in, crate::specs::Planner::plan_of))]
pub fn discard_on(g: Shape, mapped: bool, chunk: u64, out: &mut [u8]) -> Result<u32, Refusal>
    ensures { (units maps : ℕ → Bool) → (result ≡ plan_in (known g units maps mapped) (Request.Discard chunk) (length out.old))
        × (out.new ≡ out_in (known g units maps mapped) (Request.Discard chunk) out.old) }
{
    if u64::from(g.c) <= chunk {
        return Err(Refusal::Range);
    }
    put_discard(mapped, chunk as u32, out)
}

// Plans a write of `size` compressed bytes to a chunk, and stores the plan in `out`: refusals 1 to 10.
pub fn plan_write(image: &[u8], chunk: u64, size: u64, out: &mut [u8]) -> Result<u32, Refusal>
    ensures value { result ≡ plan_answer image.now (Request.Write chunk size) (length out.old) }
    ensures out_after { out.new ≡ plan_out image.now (Request.Write chunk size) out.old }
{
    let mut units = [0u64; UNIT_SET_WORDS];
    let mut maps = [0u64; MAP_SET_WORDS];
    let g = load_into(image, &mut units, &mut maps)?;
    let free = Free {
        units: &units,
        maps: &maps,
    };
    write_on(g, &free, chunk, size, out)
}

// Plans a discard of a chunk, and stores the plan in `out`: refusals 1 to 7 and 10.
pub fn plan_discard(image: &[u8], chunk: u64, out: &mut [u8]) -> Result<u32, Refusal>
    ensures value { result ≡ plan_answer image.now (Request.Discard chunk) (length out.old) }
    ensures out_after { out.new ≡ plan_out image.now (Request.Discard chunk) out.old }
{
    let shape = check_image(image)?;
    let image = Image {
        bytes: image,
        shape,
    };
    discard_on(shape, image.is_mapped(chunk), chunk, out)
}
