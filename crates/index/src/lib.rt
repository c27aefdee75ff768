// The held index by value: each call takes it, and gives the next one back.
#![tactic(auto)]

use layout::Shape;
use renewal::SET_WORDS;

pub mod held;

// An index: the shape of an image, and the sets of its free units and free maps.
#[derive(Clone, Copy)]
pub struct Index {
    pub shape: Shape,
    pub sets: [u64; SET_WORDS],
}

// What a call on an index answers by value: its answer, and the next index.
#[derive(Clone, Copy)]
pub struct Next<T> {
    pub answer: T,
    pub index: Index,
}
