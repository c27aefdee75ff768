// The work of the programs that print what an image file holds. Each of them is one call of
// `commands`.
#![tactic(auto)]

pub mod commands;
pub mod listing;
mod sizing;
mod space;
