// What crosses the C boundary of the calls on linked sections: their answers as structs of numbers.
#![tactic(auto)]

ghost use Rattle.std.specs.Prelude.{◌≡◌};
ghost use Rattle.treskibben_linked.specs.Answer.{count_answer, found_answer};

use linked::{FoundIn, Maps};
use treskibben_answers::Answer;

// Kept: number and place in each answer are the C interface.
// By address over all maps: the record's map, its number there, its function's number there, and how many records of all maps share the
// address; 0 elsewhere.
#[repr(C)]
#[derive(Clone, Copy)]
pub struct LinkedAnswer {
    pub number: u64,
    pub place: u64,
    pub map: u64,
    pub index: u64,
    pub function: u64,
    pub sharing: u64,
}

pub fn maps_answer(m: Maps) -> Answer
    ensures { result ≡ count_answer m }
{
    Answer {
        number: m.number as u64,
        place: m.place as u64,
        value: m.count as u64,
    }
}

pub fn find_answer(f: FoundIn) -> LinkedAnswer
    ensures { result ≡ found_answer f }
{
    LinkedAnswer {
        number: f.number as u64,
        place: f.place as u64,
        map: f.map as u64,
        index: f.index as u64,
        function: f.function as u64,
        sharing: f.sharing as u64,
    }
}
