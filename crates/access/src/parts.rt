// The held words of a chunk's map, as a part of the lent image.
ghost use Rattle.std.specs.Prelude.{◌≡◌, true, ◌<◌, ◌≤◌, length, IfOk};
ghost use Rattle.image.specs.Verdicts.{good_link};
ghost use Rattle.access.specs.Parts.{held_words, held_extent, held_part, held_status, held_on, held_of};

use crate::Extent;
use image::Image;
use layout::geometry::{head, map_word_place};
use layout::{ABSENT, Refusal};
use loader::load::check_image;

// Where the held words of chunk i's map stand, in an image of shape g, where the chunk's entry is good.
fn held_words(image: &Image, i: usize) -> Extent
    requires i_lt_c { (i < image.now.shape.c) × (good_link image.now.bytes.now i ≡ true) }
    ensures { (result ≡ held_words image.now.bytes.now i) × (result.start ≤ result.end) × (result.end ≤ length image.now.bytes.now) }
{
    let w = image.link(i);
    if w == ABSENT {
        return Extent { start: 0, end: 0 };
    }
    let k = w as usize;
    let units = image.held_count(k);
    let start = 8 * map_word_place(image.shape, k, head(image.shape) as usize);
    let end = start + 8 * units;
    Extent { start, end }
}

// Where a chunk's held words stand in an image of shape g, for any chunk number, or the refusal.
pub fn held_on(image: &Image, chunk: u64) -> Result<Extent, Refusal>
    requires chunk_value { chunk < image.now.shape.c → good_link image.now.bytes.now chunk ≡ true }
    ensures value { result ≡ held_on image.now.bytes.now chunk }
    ensures within { IfOk result (λ e. (e.start ≤ e.end) × (e.end ≤ length image.now.bytes.now)) }
{
    if chunk < image.shape.c as u64 {
        return Ok(held_words(image, chunk as usize));
    }
    Err(Refusal::Range)
}

// The same for any image: one check of it serves status and extent.
pub fn find_held(image: &[u8], chunk: u64) -> Result<Extent, Refusal>
    ensures value { result ≡ held_of image.now chunk }
    ensures within { IfOk result (λ e. (e.start ≤ e.end) × (e.end ≤ length image.now)) }
{
    let shape = check_image(image)?;
    held_on(
        &Image {
            bytes: image,
            shape,
        },
        chunk,
    )
}

// Where a chunk's held words stand in the image: an empty extent for an unmapped chunk or a refusal.
pub fn held_extent(image: &[u8], chunk: u64) -> Extent
    ensures { (result ≡ held_extent image.now chunk) × (result.start ≤ result.end) × (result.end ≤ length image.now) }
{
    find_held(image, chunk).unwrap_or(Extent { start: 0, end: 0 })
}

// The held words of a chunk's map, as that part of the caller's own image; an empty part for an unmapped chunk or a refusal.
pub fn held(image: &[u8], chunk: u64) -> &[u8]
    ensures { result.now ≡ held_part image.now chunk }
{
    let e = held_extent(image, chunk);
    &image[e.start..e.end]
}

// Whether `held` answers on the same inputs, or which refusal leaves its part empty.
pub fn held_status(image: &[u8], chunk: u64) -> Result<(), Refusal>
    ensures { result ≡ held_status image.now chunk }
{
    find_held(image, chunk)?;
    Ok(())
}
