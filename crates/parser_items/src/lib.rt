// The items of a listing, counted.
// All modules but `version` count places from the first byte after the version's item.
// No entry point but `version::listed_old`: `parser` has tested the listing's length before.
#![tactic(auto)]

pub mod count;
pub mod shape;
pub mod version;

// What is known of a listing before its section is written.
#[derive(Clone, Copy)]
pub struct Plan {
    // Whether it is of version 1.
    pub old: bool,
    pub functions: usize,
    pub constants: usize,
    pub records: usize,
    // The bytes of the records in the section.
    pub bytes: usize,
}
