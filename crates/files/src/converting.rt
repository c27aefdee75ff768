// An image of edition 1 made one of edition 2, in a new file.
ghost use Rattle.std.specs.Prelude.{◌≤◌};
ghost use Rattle.layout.specs.Layout.{max_image_bytes};

use crate::formatting::image_length;
use convert::upgrade::convert;
use host::making::make_file;
use host::reading::read_file;
use host::{Failure, Word};
use layout::trailers::check_trailer;
use layout::{LAST_EDITION, MAX_IMAGE_BYTES};

// The length of the converted image. Where the trailer is refused the image is too, whatever is
// lent, so that a part of the room will do.
fn converted_length(image: &[u8]) -> usize
    ensures { result ≤ max_image_bytes }
{
    match check_trailer(image) {
        Ok(g) => image_length(LAST_EDITION, u64::from(g.p), u64::from(g.c), u64::from(g.m)),
        Err(_) => 0,
    }
}

// Converts an image, makes the file that argument 2 names of the new one, and then prints its length.
fn convert_image(rt: HostRuntime, image: &[u8]) -> Result<Option<Word>, Failure> {
    let length = converted_length(image);
    let mut room = [0u8; MAX_IMAGE_BYTES];
    let converted = &mut room[..length];
    convert(image, converted)?;
    make_file(rt, 2, converted)?;
    let _ = println!(rt; "bytes {}", converted.len());
    Ok(Some(Word::Converted))
}

// Converts the image that argument 1 names.
pub(crate) fn convert_file(rt: HostRuntime) -> Result<Option<Word>, Failure> {
    let mut image = [0u8; MAX_IMAGE_BYTES];
    let length = read_file(rt, 1, &mut image)?;
    convert_image(rt, &image[..length])
}
