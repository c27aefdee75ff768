// Format: the image of a fresh volume.
ghost use Rattle.std.specs.Prelude.{◌≡◌, ◌+◌, ◌*◌, ◌≤◌, true, ◌++◌, length, drop, replicate};
ghost use Rattle.std.proofs.lemmas.List.Edits.{sets};
ghost use Rattle.layout.specs.Layout.{edition1, edition2, within_limits, head, tag, shape_bytes, size_bytes, added_bytes};
ghost use Rattle.layout.specs.Format.{format_answer, format_image};

use crate::{
    CHUNK_UNITS_AT, CHUNKS_AT, FIRST_EDITION, LAST_EDITION, MAPS_AT, MAX_CHUNK_UNITS, MAX_CHUNKS,
    MAX_MAPS, MAX_UNITS, RESERVED_AT, Refusal, SIZES_AT, Shape, TAG, UNITS_AT, VERSION_AT,
    trailers,
};

// Fills the first `end` bytes with 255.
fn fill(image: &mut [u8], end: usize)
    requires { end ≤ length image.old }
    ensures { image.new ≡ replicate end 255 ++ drop end image.old }
{
    image[..end].fill(255);
}

// Stores the four bytes that a trailer begins with.
fn put_tag(image: &mut [u8], t: usize)
    requires { t + 4 ≤ length image.old }
    ensures { image.new ≡ sets image.old t tag }
{
    image[t..t + 4].copy_from_slice(&TAG);
}

// Stores the trailer's first 20 bytes.
fn put_shape(image: &mut [u8], t: usize, g: Shape)
    requires { (t + 20 ≤ length image.old) × (within_limits g ≡ true) }
    ensures { image.new ≡ sets image.old t (shape_bytes g) }
{
    put_tag(image, t);
    words::put_u16(image, t + VERSION_AT, g.edition as u16);
    words::put_u16(image, t + CHUNK_UNITS_AT, g.p as u16);
    words::put_u32(image, t + CHUNKS_AT, g.c);
    words::put_u32(image, t + MAPS_AT, g.m);
    words::put_u32(image, t + UNITS_AT, g.n);
}

// Stores the trailer's distances and length, from `at`.
fn put_sizes(image: &mut [u8], at: usize, g: Shape)
    requires { (at + 12 ≤ length image.old) × (within_limits g ≡ true) }
    ensures { image.new ≡ sets image.old at (size_bytes g) }
{
    words::put_u32(image, at, trailers::trailer_start(g));
    words::put_u32(image, at + 4, trailers::map_bytes(g));
    words::put_u32(image, at + 8, trailers::image_bytes(g));
}

// Stores what follows edition 1's fields, from `at`.
fn put_added(image: &mut [u8], at: usize, g: Shape)
    requires { (at + 8 * head g ≤ length image.old) × (within_limits g ≡ true) }
    ensures { image.new ≡ sets image.old at (added_bytes g) }
{
    if g.edition != FIRST_EDITION {
        words::put_u32(image, at, g.r);
        words::put_u32(image, at + 4, 0);
    }
}

// Writes the image of a fresh volume of a shape in 32-bit numbers, or refuses it or the buffer's length and changes nothing.
fn format_shape(
    image: &mut [u8],
    edition: u32,
    p: u32,
    c: u32,
    m: u32,
    n: u32,
    r: u32,
) -> Result<(), Refusal>
    ensures value { result ≡ format_answer (record { edition = edition; p = p; c = c; m = m; n = n; r = r }) image.old }
    ensures image_after { image.new ≡ format_image (record { edition = edition; p = p; c = c; m = m; n = n; r = r }) image.old }
{
    let g = Shape {
        edition,
        p,
        c,
        m,
        n,
        r,
    };
    if !trailers::within_limits(g) {
        return Err(Refusal::Geometry);
    }
    if image.len() != trailers::image_bytes(g) as usize {
        return Err(Refusal::Geometry);
    }
    let start = trailers::trailer_start(g) as usize;
    fill(image, start);
    put_shape(image, start, g);
    put_sizes(image, start + SIZES_AT, g);
    put_added(image, start + RESERVED_AT, g);
    Ok(())
}

// The same for any five numbers: those past the limits are refused before they are cut to 32 bits.
fn format_edition(
    image: &mut [u8],
    edition: u32,
    p: u64,
    c: u64,
    m: u64,
    n: u64,
    r: u64,
) -> Result<(), Refusal>
    ensures value { result ≡ format_answer (record { edition = edition; p = p; c = c; m = m; n = n; r = r }) image.old }
    ensures image_after { image.new ≡ format_image (record { edition = edition; p = p; c = c; m = m; n = n; r = r }) image.old }
{
    if p > MAX_CHUNK_UNITS as u64 {
        return Err(Refusal::Geometry);
    }
    if c > MAX_CHUNKS as u64 {
        return Err(Refusal::Geometry);
    }
    if m > MAX_MAPS as u64 {
        return Err(Refusal::Geometry);
    }
    if n > MAX_UNITS as u64 {
        return Err(Refusal::Geometry);
    }
    if r > MAX_UNITS as u64 {
        return Err(Refusal::Geometry);
    }
    format_shape(
        image, edition, p as u32, c as u32, m as u32, n as u32, r as u32,
    )
}

// Writes the image of a fresh volume of edition 1, or refuses and changes nothing.
pub fn format(image: &mut [u8], p: u64, c: u64, m: u64, n: u64) -> Result<(), Refusal>
    ensures value { result ≡ format_answer (edition1 p c m n) image.old }
    ensures image_after { image.new ≡ format_image (edition1 p c m n) image.old }
{
    format_edition(image, FIRST_EDITION, p, c, m, n, 0)
}

// The same of edition 2, with the first r units reserved.
pub fn format2(image: &mut [u8], p: u64, c: u64, m: u64, n: u64, r: u64) -> Result<(), Refusal>
    ensures value { result ≡ format_answer (edition2 p c m n r) image.old }
    ensures image_after { image.new ≡ format_image (edition2 p c m n r) image.old }
{
    format_edition(image, LAST_EDITION, p, c, m, n, r)
}
