// The work of the programs that make or change image files. Each of them is one call of `commands`.
#![tactic(auto)]

pub mod commands;
mod converting;
mod formatting;
pub mod repairing;
