// Linked sections, several stack maps one after the other: the definitions, and the laws about them. No document asks for this.
#![tactic(auto)]

// A refusal's number and place, or 0, 0 and how many maps there are.
#[derive(Clone, Copy)]
pub struct Maps {
    pub number: u8,
    pub place: usize,
    pub count: usize,
}

// By address over all maps: the record's map, its number there, its function's number there, how many records of all maps share the
// address, and the record's first byte in the whole.
#[derive(Clone, Copy)]
pub struct FoundIn {
    pub number: u8,
    pub place: usize,
    pub map: usize,
    pub index: usize,
    pub function: usize,
    pub sharing: usize,
    pub first: usize,
}
