// Questions on a section: by address, by record number, by location and live-out number. Each walks the section once.
#![tactic(auto)]

// By address: the record's number, its function's number, how many records share the address, and its first byte.
#[derive(Clone, Copy)]
pub struct Found {
    pub number: u8,
    pub place: usize,
    pub index: usize,
    pub function: usize,
    pub sharing: usize,
    pub first: usize,
}

// What a search by address has found so far.
#[derive(Clone, Copy)]
pub struct Hits {
    pub index: usize,
    pub function: usize,
    pub sharing: usize,
    pub first: usize,
}

// By record number: where the record's bytes stand.
#[derive(Clone, Copy)]
pub struct Located {
    pub number: u8,
    pub place: usize,
    pub first: usize,
    pub size: usize,
}

// Where a search by number has found the record, or size 0.
#[derive(Clone, Copy)]
pub struct Stretch {
    pub first: usize,
    pub size: usize,
}

// Where a location says that its value is held: in a register, in memory or in neither.
#[derive(Clone, Copy)]
pub enum ContentPlace {
    Nowhere,
    Register,
    Memory,
}

// By record and location number. The offset is its 32 bits.
#[derive(Clone, Copy)]
pub struct LocationAnswer {
    pub number: u8,
    pub place: usize,
    pub kind: u8,
    pub size: u16,
    pub register: u16,
    pub offset: u32,
    pub constant: u64,
    pub content: ContentPlace,
}

// By record and live-out number.
#[derive(Clone, Copy)]
pub struct LiveOutAnswer {
    pub number: u8,
    pub place: usize,
    pub register: u16,
    pub size: u8,
}
