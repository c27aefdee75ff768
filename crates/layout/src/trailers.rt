// The trailer: read and judged.
ghost use Rattle.std.specs.Prelude.{◌≡◌, ◌+◌, ◌-◌, ◌*◌, ◌≤◌, true, length, if◌then◌else◌, Some, None};
ghost use Rattle.layout.specs.Layout.{first_edition, last_edition, max_reserved, within_limits, tagged_at, known_as, edition_of, known, reserved_at, shape_of, agreeing, spare_zero, map_bytes, trailer_start, trailer_bytes, image_bytes};
ghost use Rattle.layout.specs.Layout.{max_maps_words, max_words, max_trailer_bytes, max_image_bytes};
ghost use Rattle.layout.specs.Trailer.{shape_outcome, trailer_outcome};

use crate::geometry::map_words;
use crate::{
    ADDED_BYTES, CHUNK_UNITS_AT, CHUNKS_AT, FIRST_EDITION, LAST_EDITION, LENGTH_AT, LINKS_BACK_AT,
    MAPS_AT, MAPS_BACK_AT, MAX_CHUNK_UNITS, MAX_CHUNKS, MAX_SPARE_MAPS, MIN_CHUNK_UNITS,
    MIN_CHUNKS, MIN_SPARE_MAPS, RESERVED_AT, Refusal, SPARE_AT, Shape, TAG, TRAILER_BYTES,
    UNITS_AT, VERSION_AT,
};

// The most units that a shape may reserve.
fn max_reserved(g: Shape) -> u32
    requires { g.p ≤ g.n }
    ensures { result ≡ max_reserved g }
{
    if g.edition == FIRST_EDITION {
        return 0;
    }
    g.n - g.p
}

// Whether a shape is within its limits.
pub(crate) fn within_limits(g: Shape) -> bool
    ensures { result ≡ within_limits g }
{
    let edition = g.edition;
    let p = g.p;
    let c = g.c;
    let m = g.m;
    let n = g.n;
    if edition < FIRST_EDITION {
        return false;
    }
    if LAST_EDITION < edition {
        return false;
    }
    if p < MIN_CHUNK_UNITS {
        return false;
    }
    if MAX_CHUNK_UNITS < p {
        return false;
    }
    if c < MIN_CHUNKS {
        return false;
    }
    if MAX_CHUNKS < c {
        return false;
    }
    if m < c + MIN_SPARE_MAPS {
        return false;
    }
    if c + MAX_SPARE_MAPS < m {
        return false;
    }
    if n < p {
        return false;
    }
    if p * m < n {
        return false;
    }
    g.r <= max_reserved(g)
}

// The bytes of an edition's trailer.
pub(crate) fn trailer_bytes(edition: u32) -> usize
    requires { (first_edition ≤ edition) × (edition ≤ last_edition) }
    ensures { (result ≡ trailer_bytes edition) × (result ≤ max_trailer_bytes) }
{
    TRAILER_BYTES + ADDED_BYTES * (edition - FIRST_EDITION) as usize
}

// Whether the tag and a version stand at byte t.
fn is_tagged(s: &[u8], t: usize, version: u32) -> bool
    requires { t + 6 ≤ length s.now }
    ensures { result ≡ tagged_at s.now t version }
{
    [s[t], s[t + 1], s[t + 2], s[t + 3]] == TAG
        && words::get_u16(s, t + VERSION_AT) as u32 == version
}

// Whether the last bytes have an edition's tag and version.
pub fn is_known(s: &[u8], edition: u32) -> bool
    requires { (first_edition ≤ edition) × (edition ≤ last_edition) }
    ensures { result ≡ known_as edition s.now }
{
    let size = trailer_bytes(edition);
    if s.len() < size {
        return false;
    }
    is_tagged(s, s.len() - size, edition)
}

// The edition whose tag and version the last bytes have.
fn known_edition(s: &[u8]) -> Option<u32>
    ensures { result ≡ (if known s.now then Some (edition_of s.now) else None) }
{
    if is_known(s, FIRST_EDITION) {
        return Some(FIRST_EDITION);
    }
    if is_known(s, LAST_EDITION) {
        return Some(LAST_EDITION);
    }
    None
}

// How many units are reserved, as an edition's trailer at byte t says.
fn reserved_at(s: &[u8], edition: u32, t: usize) -> u32
    requires { (first_edition ≤ edition) × (edition ≤ last_edition) × (t + trailer_bytes edition ≤ length s.now) }
    ensures { result ≡ reserved_at s.now edition t }
{
    if edition == FIRST_EDITION {
        return 0;
    }
    words::get_u32(s, t + RESERVED_AT)
}

// The shape that the trailer says.
fn shape_of(s: &[u8], edition: u32) -> Shape
    requires { (edition ≡ edition_of s.now) × (first_edition ≤ edition) × (edition ≤ last_edition) × (trailer_bytes edition ≤ length s.now) }
    ensures { result ≡ shape_of s.now }
{
    let t = s.len() - trailer_bytes(edition);
    Shape {
        edition,
        p: words::get_u16(s, t + CHUNK_UNITS_AT) as u32,
        c: words::get_u32(s, t + CHUNKS_AT),
        m: words::get_u32(s, t + MAPS_AT),
        n: words::get_u32(s, t + UNITS_AT),
        r: reserved_at(s, edition, t),
    }
}

// The bytes of the chunk maps.
pub(crate) fn map_bytes(g: Shape) -> u32
    requires { within_limits g ≡ true }
    ensures { (result ≡ map_bytes g) × (result ≤ 8 * max_maps_words) }
{
    8 * (g.m * map_words(g))
}

// Where the trailer starts.
pub(crate) fn trailer_start(g: Shape) -> u32
    requires { within_limits g ≡ true }
    ensures { (result ≡ trailer_start g) × (result ≤ 8 * max_words) }
{
    8 * g.c + map_bytes(g)
}

// The bytes of the whole image.
pub fn image_bytes(g: Shape) -> u32
    requires { within_limits g ≡ true }
    ensures { (result ≡ image_bytes g) × (result ≤ max_image_bytes) }
{
    trailer_start(g) + trailer_bytes(g.edition) as u32
}

// Whether the trailer's distances and length are those of a shape within the limits.
fn agrees(s: &[u8], g: Shape) -> bool
    requires { (trailer_bytes g.edition ≤ length s.now) × (within_limits g ≡ true) }
    ensures { result ≡ agreeing s.now g }
{
    let t = s.len() - trailer_bytes(g.edition);
    let maps = map_bytes(g);
    let start = trailer_start(g);
    if words::get_u32(s, t + LINKS_BACK_AT) != start {
        return false;
    }
    if words::get_u32(s, t + MAPS_BACK_AT) != maps {
        return false;
    }
    let total = image_bytes(g) as usize;
    if words::get_u32(s, t + LENGTH_AT) as usize != total {
        return false;
    }
    s.len() == total
}

// Whether the number after R, edition 2's last, is 0.
fn spare_is_zero(s: &[u8], g: Shape) -> bool
    requires { (trailer_bytes g.edition ≤ length s.now) × (within_limits g ≡ true) }
    ensures { result ≡ spare_zero s.now g }
{
    if g.edition == FIRST_EDITION {
        return true;
    }
    let t = s.len() - trailer_bytes(g.edition);
    words::get_u32(s, t + SPARE_AT) == 0
}

// Row 3 of the table of refusals, of bytes with an edition's tag and version: the shape that the trailer says, or the refusal.
fn check_shape(s: &[u8], edition: u32) -> Result<Shape, Refusal>
    requires { (known s.now ≡ true) × (edition ≡ edition_of s.now) }
    ensures { result ≡ shape_outcome s.now }
{
    let g = shape_of(s, edition);
    if !within_limits(g) {
        return Err(Refusal::Geometry);
    }
    if !agrees(s, g) {
        return Err(Refusal::Geometry);
    }
    if !spare_is_zero(s, g) {
        return Err(Refusal::Geometry);
    }
    Ok(g)
}

// Rows 1 to 3: the shape that the trailer says, or the first row that holds.
pub fn check_trailer(s: &[u8]) -> Result<Shape, Refusal>
    ensures { result ≡ trailer_outcome s.now }
{
    if s.len() < TRAILER_BYTES {
        return Err(Refusal::Short);
    }
    let Some(edition) = known_edition(s) else {
        return Err(Refusal::Foreign);
    };
    check_shape(s, edition)
}
