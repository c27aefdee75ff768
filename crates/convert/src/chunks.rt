// The chunks of an image of edition 1, copied one by one into an image of edition 2.
ghost use Rattle.std.specs.Prelude.{◌≡◌, true, ◌<◌, length};
ghost use Rattle.layout.specs.Layout.{image_bytes, fresh};
ghost use Rattle.image.specs.Verdicts.{good_link};
ghost use Rattle.image.specs.Claims.{Tested, held_in};
ghost use Rattle.convert.specs.Convert.{second_of, second_word, put_map, copied, converted};

use image::Image;
use layout::geometry::{map_word_place, map_words};
use layout::{ABSENT, Shape, UNIT_BYTES};

// Word j of the map of edition 2 that has the units of map k, `count` of them.
fn second_word(image: &Image, k: usize, count: usize, j: usize) -> u64
    requires k_lt_m { (k < image.now.shape.m) × (count ≡ length (held_in image.now.bytes.now k)) }
    ensures { result ≡ second_word (held_in image.now.bytes.now k) j }
{
    if j == 0 {
        return count as u64 * UNIT_BYTES;
    }
    if j - 1 < count {
        return image.unit_word(k, j - 1);
    }
    ABSENT
}

// Stores map k, with its size and its units, in an image of the shape `second`.
fn copy_map(image: &Image, k: usize, second: Shape, out: &mut [u8])
    requires k_lt_m { (k < image.now.shape.m) × (second ≡ second_of image.now.shape) × (length out.old ≡ image_bytes second) }
    ensures { out.new ≡ put_map second out.old k (held_in image.now.bytes.now k) }
{
    let count = image.held_count(k);
    let n = map_words(second) as usize;
    let at = map_word_place(second, k, 0);
    for j in 0..n {
        words::put_u64(out, 8 * (at + j), second_word(image, k, count, j));
    }
}

// Stores chunk i's map and entry; nothing for an unmapped chunk.
fn copy_chunk(image: &Image, i: usize, second: Shape, out: &mut [u8])
    requires i_lt_c { (i < image.now.shape.c) × (good_link image.now.bytes.now i ≡ true) }
    requires second_value { (second ≡ second_of image.now.shape) × (length out.old ≡ image_bytes second) }
    ensures { out.new ≡ copied image.now.bytes.now i out.old }
{
    let w = image.link(i);
    if w == ABSENT {
        return;
    }
    copy_map(image, w as usize, second, out);
    words::put_u64(out, 8 * i, w);
}

// Stores the maps and entries of all chunks of a sound image in a fresh one.
pub(crate) fn copy_chunks(image: &Image, second: Shape, out: &mut [u8])
    requires tested { Tested image.now.bytes.now }
    requires second_value { (second ≡ second_of image.now.shape) × (out.old ≡ fresh second) }
    ensures { out.new ≡ converted image.now.bytes.now }
{
    for i in 0..image.shape.c as usize {
        copy_chunk(image, i, second, out);
    }
}
