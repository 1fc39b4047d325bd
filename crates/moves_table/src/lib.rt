// The move table: its form (refusal 14), its search, and what the pairs of a window find in it (refusal 21, new contents).
#![tactic(auto)]

pub mod contents;
pub mod table;
