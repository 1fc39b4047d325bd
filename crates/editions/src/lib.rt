// Settings by edition, document 02, request 9: the types, the definitions, and the law that a store answers as a plain history does.
// `editions_store` has the code.
#![tactic(auto)]

// How many editions are live at a time.
pub const PLACES: usize = 64;

// The greatest number of an edition.
pub const NUMBER_MOST: u64 = 4294967295;

// The largest pointer count (1 to 256), the machine (0 AMD64, 1 AArch64), and of versions 1 and 3 whether they are allowed (0 or 1 each).
#[repr(C)]
#[derive(Clone, Copy)]
pub struct Settings {
    pub most: u64,
    pub machine: u64,
    pub version1: u64,
    pub version3: u64,
}

// An edition's number, 0 in a free place, and what it keeps.
#[repr(C)]
#[derive(Clone, Copy)]
pub struct Edition {
    pub number: u64,
    pub settings: Settings,
}

// The greatest number ever used, and the places.
// Kept: this struct and the three answers below are the C interface, with 0 for a free place and for no refusal.
#[repr(C)]
#[derive(Clone, Copy)]
pub struct Store {
    pub greatest: u64,
    pub slots: [Edition; PLACES],
}

// A refusal's number or 0, the new edition's number or 0, and the store that is left.
#[repr(C)]
#[derive(Clone, Copy)]
pub struct Made {
    pub number: u64,
    pub edition: u64,
    pub store: Store,
}

#[repr(C)]
#[derive(Clone, Copy)]
pub struct Retired {
    pub number: u64,
    pub store: Store,
}

// A refusal's number or 0, and the edition's settings or zeros.
#[repr(C)]
#[derive(Clone, Copy)]
pub struct Read {
    pub number: u64,
    pub settings: Settings,
}
