// Statepoints and relocation, a layer above the section reader: the definitions, and the theorems about moves and lists of moves.
#![tactic(auto)]

// The machine that a stopped thread is of.
#[derive(Clone, Copy, PartialEq, Eq)]
pub enum Machine {
    Amd64,
    Aarch64,
}

// The numbers of a frame's register list, by DWARF number.
pub const REGISTERS: usize = 32;

// A frame is an address of a machine; beside it stands the list of its registers. For version 1 the address is the offset in the function with
// the number `function`, which is not read for version 3.
#[derive(Clone, Copy)]
pub struct Frame {
    pub machine: Machine,
    pub address: u64,
    pub function: u64,
}

// What a plan reads of a frame: the frame, and what its machine's frame pointer and stack pointer hold. (Unwinders call it a cursor.)
#[derive(Clone, Copy)]
pub struct Cursor {
    pub machine: Machine,
    pub address: u64,
    pub function: u64,
    pub fp: u64,
    pub sp: u64,
}

// The settings of a restore, which an edition keeps: the largest pointer count, the machine, and whether each version is allowed.
#[derive(Clone, Copy)]
pub struct Settings {
    pub most: usize,
    pub machine: Machine,
    pub version1: bool,
    pub version3: bool,
}
