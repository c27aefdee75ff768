// Document 01's worked cases: definitions and their proof, no code.
#![tactic(auto)]
