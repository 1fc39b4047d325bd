// The flat format, source document 002's version 2: where its arrays begin and how many items they have. `flat_check` stands above it
// and has the check. No function here is an entry point: they require a header, which 36 has tested.
#![tactic(auto)]

pub mod layout;
pub mod offsets;
