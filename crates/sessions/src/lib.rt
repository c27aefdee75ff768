// Request 7 over whole lists of calls and events: definitions and proofs, no code.
#![tactic(auto)]
