// Byte ranges of a volume: the pieces that they split into, what a piece reads first, and the held words and the stored size of a chunk.
#![tactic(auto)]

pub mod parts;
pub mod ranges;
pub mod sizes;

// The bytes that a piece takes in the output of a split.
pub const PIECE_BYTES: u64 = 12;

// The part of a byte range that lies in one chunk.
#[derive(Clone, Copy)]
pub struct Piece {
    pub chunk: u32,
    pub offset: u32,
    pub len: u32,
}

// What a piece reads first: nothing, zeros in place of the chunk, or the chunk's units.
#[derive(Clone, Copy)]
pub enum Access {
    Nothing,
    Zeros,
    Chunk,
}

// Where the held words of a chunk begin and end in the image, in bytes.
#[derive(Clone, Copy)]
pub struct Extent {
    pub start: usize,
    pub end: usize,
}
