// The slots of a frame, in its window and in its registers: their numbers read and written, and the new contents of the derived ones
// (refusal 21 where a base is unknown).
#![tactic(auto)]

pub mod renewal;
pub mod slots;
