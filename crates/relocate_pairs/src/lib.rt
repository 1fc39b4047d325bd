// Statepoints (refusal 12) and their pairs (refusals 18 and 19).
#![tactic(auto)]

pub mod fill;
pub mod pairs;
mod reader;
pub mod statepoint;
