// The volume image: soundness, load, and what is free.
#![tactic(auto)]

ghost use Rattle.std.specs.Prelude.{◌^◌, ◌<◌};
ghost use Rattle.bitset.specs.Bits.{limit};
ghost use Rattle.layout.specs.Shaped.{Shaped};

use layout::{MAX_MAPS, MAX_UNITS, Shape};

pub mod claims;
pub mod clashes;
pub mod judge;
pub mod maps;
pub mod scan;

// The words of the sets of free units and of free maps, a bit for each.
pub const UNIT_SET_WORDS: usize = (MAX_UNITS as usize + 63) / 64;

pub const MAP_SET_WORDS: usize = (MAX_MAPS as usize + 63) / 64;

// What load answers of a sound image: its shape and the sets of its free units and free maps.
#[derive(Clone, Copy)]
pub struct Loaded {
    pub shape: Shape,
    pub units: [u64; UNIT_SET_WORDS],
    pub maps: [u64; MAP_SET_WORDS],
}

// An image whose trailer passes, and the shape that its trailer says.
#[derive(Clone, Copy)]
pub struct Image<'a> {
    pub bytes: &'a [u8],
    pub shape: Shape,
    ghost shaped: { Shaped bytes.now shape },
}

// What is free in a volume: a set of its free units and one of its free maps. Any sets, right or not.
#[derive(Clone, Copy)]
pub struct Free<'a> {
    pub units: &'a [u64],
    pub maps: &'a [u64],
    ghost units_bound: { limit units.now < 2 ^ 64 },
}
