// The plan checker: document 01's five rules, and the lowest that is broken.
#![tactic(auto)]

mod broken;
pub mod check;
