// A whole thread in one call, document 02, requests 1, 2 and 7: the definitions and the theorems.
#![tactic(auto)]

// Frames of a list.
pub const FRAMES_MOST: usize = 4096;

// The numbers of a frame: address and function number.
pub const FRAME_NUMBERS: usize = 2;
