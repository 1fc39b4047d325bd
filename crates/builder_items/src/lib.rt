// The items of a section, written from a listing that is accepted: single items, and runs of one kind.
// No entry point: what is read and written is inside, as `builder` has shown before the first write.
#![tactic(auto)]

pub mod item;
pub mod runs;
