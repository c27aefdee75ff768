// The work of the programs on plan files: planning, checking, carrying out. Each of them is one
// call of `commands`.
#![tactic(auto)]

use layout::{MAX_CHUNK_UNITS, MAX_MAP_WORDS};
use rules::MAX_STEPS;
use steps::STEP_BYTES;

mod carrying;
pub mod commands;
mod planning;

// Of a plan file one step more is read than a plan may have. A longer plan breaks rule 1 by its
// length, and so do its first 65 steps: the answer is the same (`long-checked` in proofs/Theorems).
// Only how many steps a plan has must then be asked of the file (`asked_of`, `long-carried`).
pub const READ_STEPS: usize = MAX_STEPS + 1;

pub const PLAN_ROOM: usize = STEP_BYTES * READ_STEPS;

// The longest plan that the planner writes: a step for each unit and for each word of the map, then
// FENCE, LINK, FENCE.
pub const OWN_PLAN_ROOM: usize = STEP_BYTES * (MAX_CHUNK_UNITS + MAX_MAP_WORDS + 3) as usize;
