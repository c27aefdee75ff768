// The repair of a damaged image: the chunks with a fault are unlinked, and nothing else changes.
#![tactic(auto)]

use image::{MAP_SET_WORDS, UNIT_SET_WORDS};
use layout::Refusal;

mod claims;
mod faults;
pub mod mend;

// The words of a set of chunks, a bit for each.
const CHUNK_SET_WORDS: usize = 4;

// One set has the claims of units and of maps: unit u is claim u, and the maps come after every unit.
const FIRST_MAP_CLAIM: usize = 64 * UNIT_SET_WORDS;

const CLAIM_WORDS: usize = UNIT_SET_WORDS + MAP_SET_WORDS;
