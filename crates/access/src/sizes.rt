// A chunk's stored size.
ghost use Rattle.std.specs.Prelude.{◌≡◌, true, ◌<◌};
ghost use Rattle.image.specs.Stored.{stored_size};
ghost use Rattle.image.specs.Verdicts.{good_link};
ghost use Rattle.access.specs.Sizes.{size_on, size_answer};

use image::Image;
use layout::geometry::head;
use layout::{ABSENT, Refusal, UNIT_BYTES};
use loader::load::check_image;

// The stored size of chunk i, in an image of shape g, where the chunk's entry is good.
fn size_in(image: &Image, i: usize) -> u64
    requires i_lt_c { (i < image.now.shape.c) × (good_link image.now.bytes.now i ≡ true) }
    ensures { result ≡ stored_size image.now.bytes.now i }
{
    let w = image.link(i);
    if w == ABSENT {
        return 0;
    }
    let k = w as usize;
    if head(image.shape) == 0 {
        return image.held_count(k) as u64 * UNIT_BYTES;
    }
    image.map_word(k, 0)
}

// A chunk's stored size in an image of shape g, for any chunk number; 0 for an unmapped chunk.
pub fn size_on(image: &Image, chunk: u64) -> Result<u64, Refusal>
    requires chunk_value { chunk < image.now.shape.c → good_link image.now.bytes.now chunk ≡ true }
    ensures { result ≡ size_on image.now.bytes.now chunk }
{
    if chunk < image.shape.c as u64 {
        return Ok(size_in(image, chunk as usize));
    }
    Err(Refusal::Range)
}

// The same for any image.
pub fn stored_size(image: &[u8], chunk: u64) -> Result<u64, Refusal>
    ensures { result ≡ size_answer image.now chunk }
{
    let shape = check_image(image)?;
    size_on(
        &Image {
            bytes: image,
            shape,
        },
        chunk,
    )
}
