// Why a slot moves or does not, document 02, request 8: the definitions and the theorems. Nothing is written.
#![tactic(auto)]

// Why a slot of a frame ends as it does. Moved: the lowest pair that derives it, the old base and the new base. Refused: the number and the
// place that the move of the frame would give.
#[derive(Clone, Copy)]
pub enum Reason {
    Unlisted,
    OnlyBase,
    NullBase,
    Moved(usize, u64, u64),
    Refused(u8, usize),
}

// A slot that is asked for: the address of its first byte, or a register.
#[derive(Clone, Copy)]
pub enum Asked {
    Address(u64),
    Register(u64),
}
