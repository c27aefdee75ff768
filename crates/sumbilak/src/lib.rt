// The C interface: one function for every entry point, on numbers and lent slices. The crate sumbilak_c exports them.
#![tactic(auto)]

pub mod calls;
pub mod holding;
