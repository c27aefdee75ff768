// The converter from edition 1 to edition 2.
#![tactic(auto)]

use layout::Refusal;

mod chunks;
pub mod upgrade;
