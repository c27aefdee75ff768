// Document 01's five rules of a plan, and what the checker answers.
#![tactic(auto)]

// The most steps that a plan may have.
pub const MAX_STEPS: usize = 64;
