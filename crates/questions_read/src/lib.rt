// A location of a record that stands there.
#![tactic(auto)]

pub mod read;
