// An address index of a section: the definitions, and the laws about them. Document 02, request 4.
#![tactic(auto)]

// A refusal's number and place, or 0, 0 and how many numbers were written into the lent list.
#[derive(Clone, Copy)]
pub struct Written {
    pub number: u8,
    pub place: usize,
    pub written: usize,
}
