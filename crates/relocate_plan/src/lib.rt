// What the move of a frame is before its slots are looked at: the stages of its plan that read the section, the image's length and the
// frame, and neither a byte of the image nor a register's content. A move and an explanation both begin with them.
#![tactic(auto)]

pub mod extent;
pub mod plan;

// A refusal's number and place; or 0, and the frame's extent of `size` bytes from the stack pointer, with the record at `at` of the section:
// its `count` pairs from location `start` on have the right form, and are `pointers` pointers. `old` is true for version 1.
// Kept: the contracts of the public `outline_found` and `judge` (`Outlines`, `Judged`) speak of `number` and `place`.
#[derive(Clone, Copy)]
pub struct Outline {
    pub number: u8,
    pub place: usize,
    pub size: usize,
    pub pointers: usize,
    pub at: usize,
    pub start: usize,
    pub count: usize,
    pub old: bool,
}
