// Load: one pass over an image that is sound, and the scans for the refusal of any other.
#![tactic(auto)]

pub mod load;
pub mod survey;
