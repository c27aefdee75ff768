// The converter: refusals first, then the whole second buffer.
ghost use Rattle.std.specs.Prelude.{◌≡◌, length};
ghost use Rattle.layout.specs.Layout.{image_bytes};
ghost use Rattle.image.specs.Claims.{Tested};
ghost use Rattle.image.specs.Verdicts.{as_first};
ghost use Rattle.convert.specs.Convert.{second_of, converted, if_exact, convert_answer, unless_refused, convert_out};

use crate::chunks::copy_chunks;
use image::Image;
use layout::format::format2;
use layout::trailers::{image_bytes, is_known};
use layout::{FIRST_EDITION, LAST_EDITION, Refusal, Shape, TRAILER_BYTES};
use loader::load::check_image;

// The shape of the image of edition 2.
fn second_of(g: Shape) -> Shape
    ensures { result ≡ second_of g }
{
    Shape {
        edition: LAST_EDITION,
        r: 0,
        ..g
    }
}

// The conversion of a sound image: refusal 10.
fn convert_in(image: &Image, out: &mut [u8]) -> Result<u32, Refusal>
    requires tested { Tested image.now.bytes.now }
    ensures value { result ≡ if_exact (length out.old) (image_bytes (second_of image.now.shape)) }
    ensures out_after { out.new
        ≡ unless_refused (if_exact (length out.old) (image_bytes (second_of image.now.shape))) (converted image.now.bytes.now) out.old }
{
    let g = image.shape;
    let second = second_of(g);
    let n = image_bytes(second);
    if out.len() != n as usize {
        return Err(Refusal::Small(n));
    }
    // Its answer is known: g is within the limits, and the buffer has the length.
    let _ = format2(out, g.p as u64, g.c as u64, g.m as u64, g.n as u64, 0);
    copy_chunks(image, second, out);
    Ok(n)
}

// Whether 01's own verdict on an image is load's: it is under 32 bytes, or is read as edition 1. Any other gives 2.
fn reads_as_first(image: &[u8]) -> bool
    ensures { result ≡ as_first image.now }
{
    if image.len() < TRAILER_BYTES {
        return true;
    }
    is_known(image, FIRST_EDITION)
}

// Converts an image of edition 1 into `out`, which must have exactly the new length: refusals 1 to 6, where 2 is whatever is not read as edition 1, and 10.
pub fn convert(image: &[u8], out: &mut [u8]) -> Result<u32, Refusal>
    ensures value { result ≡ convert_answer image.now (length out.old) }
    ensures out_after { out.new ≡ convert_out image.now out.old }
{
    if !reads_as_first(image) {
        return Err(Refusal::Foreign);
    }
    let shape = check_image(image)?;
    convert_in(
        &Image {
            bytes: image,
            shape,
        },
        out,
    )
}
