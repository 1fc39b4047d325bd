// The records of all frames of a list, found in one walk.
#![tactic(auto)]

pub mod addresses;
pub mod list;
pub mod search;
