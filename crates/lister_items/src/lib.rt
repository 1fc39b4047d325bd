// The items of a listing, written from an accepted section: single items, and runs of one kind.
// No entry point: what is read and written is inside, as `lister` has shown before the first write.
#![tactic(auto)]

pub mod items;
pub mod runs;
