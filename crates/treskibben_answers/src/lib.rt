// What crosses the C boundary: the structs, and the answers of the layers below turned into them, field by field.
#![tactic(auto)]

ghost use Rattle.stackmap.specs.Verdict.{verdict};
ghost use Rattle.std.specs.Prelude.{◌≡◌};
ghost use Rattle.treskibben_answers.specs.Answer.{answer, move_answer, frame_of, find_answer_of, record_place_of, content_number, location_of, live_out_of};
ghost use Rattle.questions.specs.Questions.{signed, ask};
ghost use Rattle.moves.specs.Settle.{refused_move};
ghost use Rattle.treskibben_answers.specs.Version.{version};

use refusals::Refusal;

// The number of the interface.
pub fn version() -> u32
    ensures { result ≡ version }
{
    3
}

// Kept: number and place in each answer are the C interface.
// A refusal's number and place, or 0 and 0 and the value that the call is for.
#[repr(C)]
#[derive(Clone, Copy)]
pub struct Answer {
    pub number: u64,
    pub place: u64,
    pub value: u64,
}

// The check of a section.
pub fn check_answer(v: Result<usize, Refusal>) -> Answer
    ensures { result ≡ answer (verdict v) }
{
    match v {
        Ok(_) => Answer {
            number: 0,
            place: 0,
            value: 0,
        },
        Err(Refusal(cause, p)) => Answer {
            number: cause.number() as u64,
            place: p as u64,
            value: 0,
        },
    }
}

// By address, or by function and offset: the first record's number, its function's number, and how many records share the address or
// the offset.
#[repr(C)]
#[derive(Clone, Copy)]
pub struct FindAnswer {
    pub number: u64,
    pub place: u64,
    pub index: u64,
    pub function: u64,
    pub sharing: u64,
}

pub fn search_answer(f: questions::Found) -> FindAnswer
    ensures { result ≡ find_answer_of f }
{
    FindAnswer {
        number: f.number as u64,
        place: f.place as u64,
        index: f.index as u64,
        function: f.function as u64,
        sharing: f.sharing as u64,
    }
}

// By record number: the record's first byte in the section and its length.
#[repr(C)]
#[derive(Clone, Copy)]
pub struct RecordPlace {
    pub number: u64,
    pub place: u64,
    pub first: u64,
    pub length: u64,
}

pub fn record_answer(l: questions::Located) -> RecordPlace
    ensures { result ≡ record_place_of l }
{
    RecordPlace {
        number: l.number as u64,
        place: l.place as u64,
        first: l.first as u64,
        length: l.size as u64,
    }
}

// The content place of a location by its number: 0 none, 1 a register, 2 memory.
fn content_number(place: questions::ContentPlace) -> u8
    ensures { result ≡ content_number place }
{
    match place {
        questions::ContentPlace::Nowhere => 0,
        questions::ContentPlace::Register => 1,
        questions::ContentPlace::Memory => 2,
    }
}

// A location. The offset is its 32 bits, which C and Rust read as a signed number.
#[repr(C)]
#[derive(Clone, Copy)]
pub struct Location {
    pub number: u64,
    pub place: u64,
    pub constant: u64,
    pub offset: u32,
    pub size: u16,
    pub register: u16,
    pub kind: u8,
    pub content: u8,
}

pub fn location_answer(l: questions::LocationAnswer) -> Location
    ensures { result ≡ location_of (signed l) }
{
    let content = l.content;
    Location {
        number: l.number as u64,
        place: l.place as u64,
        constant: l.constant,
        offset: l.offset,
        size: l.size,
        register: l.register,
        kind: l.kind,
        content: content_number(content),
    }
}

// A live-out.
#[repr(C)]
#[derive(Clone, Copy)]
pub struct LiveOut {
    pub number: u64,
    pub place: u64,
    pub register: u16,
    pub size: u8,
}

pub fn live_out_answer(o: questions::LiveOutAnswer) -> LiveOut
    ensures { result ≡ live_out_of o }
{
    LiveOut {
        number: o.number as u64,
        place: o.place as u64,
        register: o.register,
        size: o.size,
    }
}

// Either conversion: a refusal, or the length written.
pub fn conversion_answer(c: listing::Conversion) -> Answer
    ensures { result ≡ record { number = c.number; place = c.place; value = c.written } }
{
    Answer {
        number: c.number as u64,
        place: c.place as u64,
        value: c.written as u64,
    }
}

// A call that writes numbers into a lent list: a refusal, or how many it wrote.
pub fn written_answer(w: index::Written) -> Answer
    ensures { result ≡ record { number = w.number; place = w.place; value = w.written } }
{
    Answer {
        number: w.number as u64,
        place: w.place as u64,
        value: w.written as u64,
    }
}

// A move for a machine that is not known: the section's refusal, or 33.
pub fn unknown_machine(v: Result<usize, Refusal>) -> Answer
    ensures { result ≡ move_answer (ask refused_move (refused_move 33 0) (verdict v)) }
{
    match v {
        Ok(_) => Answer {
            number: 33,
            place: 0,
            value: 0,
        },
        Err(Refusal(cause, place)) => Answer {
            number: cause.number() as u64,
            place: place as u64,
            value: 0,
        },
    }
}

// A frame: an address. For version 1 it is the offset in the function with the number `function`, which is not read for version 3.
#[repr(C)]
#[derive(Clone, Copy)]
pub struct Frame {
    pub address: u64,
    pub function: u64,
}

pub fn frame_of(machine: relocate::Machine, f: Frame) -> relocate::Frame
    ensures { result ≡ frame_of machine f }
{
    relocate::Frame {
        machine,
        address: f.address,
        function: f.function,
    }
}

// The move of one frame or of a thread: a refusal, or the number of pointers.
pub fn move_answer(m: moves::Move) -> Answer
    ensures { result ≡ move_answer m }
{
    Answer {
        number: m.number as u64,
        place: m.place as u64,
        value: m.count as u64,
    }
}
