// Carrying a plan out by an index that goes with the image, and what becomes of the index.
ghost use Rattle.std.specs.Prelude.{◌≡◌, cond, ◌≤◌, ◌<◌, length};
ghost use Rattle.layout.specs.Layout.{link_of};
ghost use Rattle.layout.specs.Shaped.{Shaped, On};
ghost use Rattle.steps.specs.Steps.{whole_steps};
ghost use Rattle.carry.specs.Carry.{link_within, carry_in, left_by};
ghost use Rattle.renewal.specs.Renewal.{set_words, renewed_sets};
ghost use Rattle.indexed.specs.Calls.{index_of, known_in, sets_left};

use crate::sets::free_in;
use carry::carry_in;
use image::Image;
use layout::{ABSENT, Refusal, Shape};
use renewal::linked::link_within;
use renewal::renew::renew;
use steps::Request;
use steps::requests::chunk_of;

// Chunk i's entry; of a chunk that is not below C it says nothing.
fn entry(image: &Image, i: u64) -> u64
    ensures { i < image.now.shape.c → result ≡ link_of image.now.bytes.now i }
{
    if i < image.shape.c as u64 {
        image.link(i as usize)
    } else {
        ABSENT
    }
}

// The sets where the first `n` steps of a plan were carried out, and its chunk's entry was `old` before: they are renewed if LINK is among those.
fn follow(sets: &mut [u64], image: &Image, chunk: usize, old: u64, plan: &[u8], n: usize)
    requires chunk_lt_c { (chunk < image.now.shape.c) × (set_words ≤ length sets.old) × (n ≤ whole_steps plan.now) }
    ensures { sets.new
        ≡ cond (link_within plan.now n)
        (renewed_sets sets.old image.now.bytes.now old (link_of image.now.bytes.now chunk)) sets.old }
{
    if link_within(plan, n) {
        let new = image.link(chunk);
        renew(sets, image, old, new);
    }
}

// Checks a plan and carries its first `n` steps out by the sets, which stay as they are: refusals 7, 8 and 11.
fn carry_by(
    g: Shape,
    sets: &[u64],
    image: &mut [u8],
    request: Request,
    plan: &[u8],
    n: u64,
) -> Result<(), Refusal>
    requires on { On g image.old }
    requires set_words_in_bounds { set_words ≤ length sets.now }
    ensures value { result ≡ carry_in (known_in (index_of g sets.now) image.old request) request plan.now n }
    ensures image_after { image.new
        ≡ left_by (carry_in (known_in (index_of g sets.now) image.old request) request plan.now n) image.old
        plan.now n }
{
    let mapped = Image {
        bytes: image,
        shape: g,
    }
    .is_mapped(chunk_of(request));
    carry_in(image, g, &free_in(sets), mapped, request, plan, n)
}

// The same, and the sets are then the next index's.
pub(crate) fn carry_on(
    g: Shape,
    sets: &mut [u64],
    image: &mut [u8],
    request: Request,
    plan: &[u8],
    n: u64,
) -> Result<(), Refusal>
    requires on { On g image.old }
    requires set_words_in_bounds { set_words ≤ length sets.old }
    ensures value { result ≡ carry_in (known_in (index_of g sets.old) image.old request) request plan.now n }
    ensures image_after { image.new
        ≡ left_by (carry_in (known_in (index_of g sets.old) image.old request) request plan.now n) image.old
        plan.now n }
    ensures sets_after { sets.new
        ≡ sets_left (carry_in (known_in (index_of g sets.old) image.old request) request plan.now n) sets.old
        image.old request plan.now n }
{
    let chunk = chunk_of(request);
    let old = entry(
        &Image {
            bytes: image,
            shape: g,
        },
        chunk,
    );
    carry_by(g, sets, image, request, plan, n)?;
    follow(
        sets,
        &Image {
            bytes: image,
            shape: g,
        },
        chunk as usize,
        old,
        plan,
        n as usize,
    );
    Ok(())
}
