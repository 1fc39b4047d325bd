// Where the slot of a location is, and whether it is inside (refusal 19).
#![tactic(auto)]

pub mod slots;
