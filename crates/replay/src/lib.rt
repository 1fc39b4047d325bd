// Replay of a recorded restore, document 02, request 12: the types, the definitions and the theorems.
#![tactic(auto)]

// The bytes of a trace's items with their kind, and of a frame with its answer.
pub const FRAME_SIZE: usize = 274;

pub const ANSWER_SIZE: usize = 10;

pub const STEP_SIZE: usize = 284;

// An answer as a trace records it: its number, and its place or count.
#[derive(Clone, Copy)]
pub struct Recorded {
    pub number: u8,
    pub value: usize,
}

// What a replay comes to. Broken: the trace's first bad item, by its first byte (35). Differs: the first answer item that differs, counted from 0
// among answers, with the number and the place or count of the answer that its frame gets now.
#[derive(Clone, Copy)]
pub enum Outcome {
    Broken(usize),
    Same,
    Differs(usize, u8, usize),
}
