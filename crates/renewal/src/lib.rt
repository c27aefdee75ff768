// The sets of an index: how they change when a plan's LINK is carried out.
#![tactic(auto)]

use image::{MAP_SET_WORDS, UNIT_SET_WORDS};

pub mod linked;
pub mod renew;

// The words of an index's sets: those of the free units, then those of the free maps.
pub const SET_WORDS: usize = UNIT_SET_WORDS + MAP_SET_WORDS;
