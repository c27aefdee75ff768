// Whether an index goes with an image, and whether a call on one chunk can be answered by it.
ghost use Rattle.std.specs.Prelude.{◌≡◌};
ghost use Rattle.indexed.specs.Admitting.{shape_from, trailer_by, bad_entry, verdict_by, chunk_verdict_by, outcome_by};

use crate::{HeldShape, SET_BYTES};
use image::Image;
use layout::trailers::check_trailer;
use layout::{Refusal, Shape};
use renewal::SET_WORDS;

// The shape of an image whose trailer passes and says what the index holds: refusals 1 to 3.
#[tactic(auto, unfolding(crate::specs::Admitting::trailer_by, crate::specs::Admitting::same_shape))]
fn trailer(h: HeldShape, image: &[u8]) -> Result<Shape, Refusal>
    ensures { result ≡ trailer_by (shape_from h) image.now }
{
    let g = check_trailer(image)?;
    if HeldShape::from(g) != h {
        return Err(Refusal::Geometry);
    }
    Ok(g)
}

// For a call on no chunk, with so many words lent: refusals 1 to 3 and 10. `Sound` here is admitted: nobody judges the chunks.
#[tactic(auto, unfolding(crate::specs::Admitting::verdict_by, crate::specs::Admitting::enough))]
pub(crate) fn admit(h: HeldShape, words: usize, image: &[u8]) -> Result<Shape, Refusal>
    ensures { result ≡ outcome_by (shape_from h) (verdict_by (shape_from h) words image.now) }
{
    let g = trailer(h, image)?;
    if words < SET_WORDS {
        return Err(Refusal::Small(SET_BYTES));
    }
    Ok(g)
}

// Whether the entry of chunk i is neither absent nor a map's number; a chunk past the last has none.
#[tactic(auto, unfolding(crate::specs::Admitting::bad_entry))]
fn bad_entry(image: &Image, i: u64) -> bool
    ensures { result ≡ bad_entry image.now.shape image.now.bytes.now i }
{
    i < image.shape.c as u64 && !image.good_link(i as usize)
}

// For a call on chunk i: refusals 1 to 4 and 10.
#[tactic(auto, unfolding(crate::specs::Admitting::chunk_verdict_by))]
pub(crate) fn admit_chunk(
    h: HeldShape,
    words: usize,
    image: &[u8],
    i: u64,
) -> Result<Shape, Refusal>
    ensures { result ≡ outcome_by (shape_from h) (chunk_verdict_by (shape_from h) words image.now i) }
{
    let g = trailer(h, image)?;
    if bad_entry(
        &Image {
            bytes: image,
            shape: g,
        },
        i,
    ) {
        return Err(Refusal::BadLink(i as u32));
    }
    if words < SET_WORDS {
        return Err(Refusal::Small(SET_BYTES));
    }
    Ok(g)
}
