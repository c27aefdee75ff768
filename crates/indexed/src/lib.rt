// The calls with a held index, where its words are lent: what is free in an image, kept from call to call, so that no call but the one that opens the image goes
// over all of it.
#![tactic(auto)]

use renewal::SET_WORDS;

mod admit;
mod carrying;
pub mod lent;
pub mod opening;
mod sets;
pub mod shapes;

const SET_BYTES: u32 = 8 * SET_WORDS as u32;

// The shape that an index holds, as a caller keeps it: any numbers.
#[repr(C)]
#[derive(Clone, Copy, PartialEq)]
pub struct HeldShape {
    pub edition: u64,
    pub p: u64,
    pub c: u64,
    pub m: u64,
    pub n: u64,
    pub r: u64,
}
