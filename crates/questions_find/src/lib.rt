// The questions by address, and by function number and offset.
#![tactic(auto)]

use questions::Hits;

pub mod find;

// What one walk tells of a section that other bytes may follow: 0 and where its last record ends, with what was found, or the number and
// place of its refusal.
#[derive(Clone, Copy)]
pub struct Scanned {
    pub number: u8,
    pub place: usize,
    pub hits: Hits,
}
