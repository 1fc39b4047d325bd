// The move of one window, the stretch of the image that is one frame's extent (window is our own word): definitions and laws.
#![tactic(auto)]

// The bytes of a slot: one pointer.
pub const POINTER_SIZE: usize = 8;

// Pointers of a frame; in version 1 each pair is one.
pub const PAIRS_MOST: usize = 256;

// Slots as numbers: a slot in memory is its first byte, and register r is REGISTERS_FROM + 8 * r.
pub const REGISTERS_FROM: usize = 4294967296;

// Entries of a move table.
pub const TABLE_MOST: usize = 65536;

// The answer to a move: a refusal's number and place, and count 0; or 0, 0 and the number of pointers, null ones included.
#[derive(Clone, Copy)]
pub struct Move {
    pub number: u8,
    pub place: usize,
    pub count: usize,
}
