// A fresh volume in a new file.
ghost use Rattle.std.specs.Prelude.{◌≡◌, true, ℕ, ◌≤◌, length};
ghost use Rattle.layout.specs.declared.Shape.{Shape};
ghost use Rattle.layout.specs.Layout.{first_edition, last_edition, within_limits, image_bytes, max_image_bytes};

use host::making::make_file;
use host::{Failure, Word};
use layout::format::{format, format2};
use layout::{
    ADDED_BYTES, FIRST_EDITION, MAX_CHUNK_UNITS, MAX_CHUNKS, MAX_IMAGE_BYTES, MAX_MAPS,
    TRAILER_BYTES,
};

// The length of the image of a shape within the limits. Past them format refuses whatever is lent
// to it, so that a part of the room will do.
pub(crate) fn image_length(edition: u32, p: u64, c: u64, m: u64) -> usize
    requires { (first_edition ≤ edition) × (edition ≤ last_edition) }
    ensures bound { result ≤ max_image_bytes }
    ensures value { (n reserved : ℕ) →
        let g : Shape = record { edition = edition; p = p; c = c; m = m; n = n; r = reserved } in
        within_limits g ≡ true → result ≡ image_bytes g }
{
    if p > MAX_CHUNK_UNITS as u64 || c > MAX_CHUNKS as u64 || m > MAX_MAPS as u64 {
        return 0;
    }
    let head = (edition - FIRST_EDITION) as usize;
    let map_words = head + p as usize;
    8 * c as usize + 8 * (m as usize * map_words) + (TRAILER_BYTES + ADDED_BYTES * head)
}

// Makes the file that argument 1 names of a fresh volume. Edition 1 has no reserved units.
pub(crate) fn format_file(
    rt: HostRuntime,
    edition: u32,
    p: u64,
    c: u64,
    m: u64,
    n: u64,
    r: u64,
) -> Result<Option<Word>, Failure>
    requires { (first_edition ≤ edition) × (edition ≤ last_edition) }
{
    let length = image_length(edition, p, c, m);
    let mut room = [0u8; MAX_IMAGE_BYTES];
    let image = &mut room[..length];
    if edition == FIRST_EDITION {
        format(image, p, c, m, n)?;
    } else {
        format2(image, p, c, m, n, r)?;
    }
    make_file(rt, 1, image)?;
    Ok(Some(Word::Formatted))
}
