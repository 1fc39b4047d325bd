// What stands before the records, and how one record is laid out.
#![tactic(auto)]

pub mod shape;
pub mod tables;
