// The layout of a volume image: its shape and limits, the trailer, format, and the refusals.
#![tactic(auto)]

pub mod format;
pub mod geometry;
pub mod refusals;
pub mod trailers;

// The bytes of a backing unit.
pub const UNIT_BYTES: u64 = 4096;

// Units in a chunk, chunks, and chunk maps beyond one for each chunk.
pub const MIN_CHUNK_UNITS: u32 = 2;

pub const MAX_CHUNK_UNITS: u32 = 16;

pub const MIN_CHUNKS: u32 = 1;

pub const MAX_CHUNKS: u32 = 256;

pub const MIN_SPARE_MAPS: u32 = 1;

pub const MAX_SPARE_MAPS: u32 = 32;

// What the limits make of chunk maps and of backing units at the most.
pub const MAX_MAPS: u32 = MAX_CHUNKS + MAX_SPARE_MAPS;

pub const MAX_UNITS: u32 = MAX_CHUNK_UNITS * MAX_MAPS;

// No map, no unit: document 01's X.
pub const ABSENT: u64 = 18446744073709551615;

// The editions: a version each. Edition 2 has one more word in a map and eight more bytes in the trailer.
pub const FIRST_EDITION: u32 = 1;

pub const LAST_EDITION: u32 = 2;

// The trailer: its bytes in edition 1, those that a later one adds, and the four that it begins with.
pub const TRAILER_BYTES: usize = 32;

pub const ADDED_BYTES: usize = 8;

pub const TAG: [u8; 4] = *b"RMAP";

// The words of a map at the most, and the bytes of an image.
pub const MAX_MAP_WORDS: u32 = LAST_EDITION - FIRST_EDITION + MAX_CHUNK_UNITS;

pub const MAX_IMAGE_BYTES: usize = 8 * (MAX_CHUNKS + MAX_MAPS * MAX_MAP_WORDS) as usize
    + TRAILER_BYTES
    + ADDED_BYTES;

// Where its fields stand, from its first byte on: the distances lead back to the logical map and to the chunk maps.
pub(crate) const VERSION_AT: usize = 4;

pub(crate) const CHUNK_UNITS_AT: usize = 6;

pub(crate) const CHUNKS_AT: usize = 8;

pub(crate) const MAPS_AT: usize = 12;

pub(crate) const UNITS_AT: usize = 16;

pub(crate) const SIZES_AT: usize = 20;

pub(crate) const LINKS_BACK_AT: usize = 20;

pub(crate) const MAPS_BACK_AT: usize = 24;

pub(crate) const LENGTH_AT: usize = 28;

pub(crate) const RESERVED_AT: usize = 32;

pub(crate) const SPARE_AT: usize = 36;

// Why a call refuses: the rows of document 01's table, with the place that each gives.
#[derive(Clone, Copy)]
pub enum Refusal {
    Short,
    Foreign,
    Geometry,
    BadLink(u32),
    BadMap(u32),
    Shared(u32, u32),
    Range,
    Size,
    NoRoom(u32),
    Small(u32),
    BadPlan(u32),
    BadAlarm,
}

// The shape of a volume: its edition, document 01's P, C, M and N (units in a chunk, chunks, chunk maps, backing units), and R: the first R backing units
// are reserved. Edition 1 has none.
#[derive(Clone, Copy)]
pub struct Shape {
    pub edition: u32,
    pub p: u32,
    pub c: u32,
    pub m: u32,
    pub n: u32,
    pub r: u32,
}
