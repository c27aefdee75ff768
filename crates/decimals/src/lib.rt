// Decimal numbers and fractions, read from text as far as their definitions go and not by what fits a machine word.
#![tactic(auto)]

pub mod fractions;
pub mod numbers;
