// The archive that C links: the library's calls, exported. include/sumbilak.h declares them.
#![tactic(auto)]

mod calls;
mod holding;
