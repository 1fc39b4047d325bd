// What crosses the C boundary of the flat sections: the structs, and the answers of the layers below turned into them, field by field. The place
// of every refusal is 0.
#![tactic(auto)]

ghost use Rattle.std.specs.Prelude.{◌≡◌};
ghost use Rattle.treskibben_flat.specs.Flat.{checked, matched, constant_of, frame_of, register_of, record_of, location_of, live_out_of};

// A refusal's number and place, or 0 and 0 and the value that the call is for.
// Kept: number and place in each answer are the C interface.
#[repr(C)]
#[derive(Clone, Copy)]
pub struct Answer {
    pub number: u64,
    pub place: u64,
    pub value: u64,
}

pub fn checked_answer(n: u8) -> Answer
    ensures { result ≡ checked n }
{
    Answer {
        number: u64::from(n),
        place: 0,
        value: 0,
    }
}

pub fn constant_answer(c: flat_read::ConstantAnswer) -> Answer
    ensures { result ≡ constant_of c }
{
    Answer {
        number: u64::from(c.number),
        place: c.place as u64,
        value: c.value,
    }
}

// By address: the numbers of frame and record.
#[repr(C)]
#[derive(Clone, Copy)]
pub struct Match {
    pub number: u64,
    pub place: u64,
    pub frame: u64,
    pub index: u64,
}

pub fn match_answer(f: flat_match::MatchAnswer) -> Match
    ensures { result ≡ matched f }
{
    Match {
        number: u64::from(f.number),
        place: f.place as u64,
        frame: f.frame as u64,
        index: f.index as u64,
    }
}

// A frame. The flags are its 16 bits.
#[repr(C)]
#[derive(Clone, Copy)]
pub struct Frame {
    pub number: u64,
    pub place: u64,
    pub address: u64,
    pub size: u32,
    pub stack: u32,
    pub flags: u16,
    pub base: u16,
    pub registers: u16,
    pub registersat: u16,
    pub records: u16,
    pub recordsat: u16,
}

pub fn frame_answer(f: flat_read::FrameAnswer) -> Frame
    ensures { result ≡ frame_of f }
{
    Frame {
        number: u64::from(f.number),
        place: f.place as u64,
        address: f.address,
        size: f.size,
        stack: f.stack,
        flags: f.flags,
        base: f.base,
        registers: f.registers,
        registersat: f.registersat,
        records: f.records,
        recordsat: f.recordsat,
    }
}

// A frame register. The offset is its 16 bits, which C and Rust read as a signed number.
#[repr(C)]
#[derive(Clone, Copy)]
pub struct Register {
    pub number: u64,
    pub place: u64,
    pub register: u16,
    pub offset: u16,
    pub size: u8,
    pub flags: u8,
}

pub fn register_answer(g: flat_read::RegisterAnswer) -> Register
    ensures { result ≡ register_of g }
{
    Register {
        number: u64::from(g.number),
        place: g.place as u64,
        register: g.register,
        offset: g.offset,
        size: g.size,
        flags: g.flags,
    }
}

// A record.
#[repr(C)]
#[derive(Clone, Copy)]
pub struct Record {
    pub number: u64,
    pub place: u64,
    pub id: u64,
    pub offset: u32,
    pub locations: u16,
    pub locationsat: u16,
    pub liveouts: u16,
    pub liveoutsat: u16,
    pub call: u8,
    pub flags: u8,
}

pub fn record_answer(e: flat_read::RecordAnswer) -> Record
    ensures { result ≡ record_of e }
{
    Record {
        number: u64::from(e.number),
        place: e.place as u64,
        id: e.id,
        offset: e.offset,
        locations: e.locations,
        locationsat: e.locationsat,
        liveouts: e.liveouts,
        liveoutsat: e.liveoutsat,
        call: e.call,
        flags: e.flags,
    }
}

// A location. The offset is its 32 bits, which C and Rust read as a signed number.
#[repr(C)]
#[derive(Clone, Copy)]
pub struct Location {
    pub number: u64,
    pub place: u64,
    pub offset: u32,
    pub register: u16,
    pub kind: u8,
}

pub fn location_answer(l: flat_read::LocationAnswer) -> Location
    ensures { result ≡ location_of l }
{
    Location {
        number: u64::from(l.number),
        place: l.place as u64,
        offset: l.offset,
        register: l.register,
        kind: l.kind,
    }
}

// A live-out.
#[repr(C)]
#[derive(Clone, Copy)]
pub struct LiveOut {
    pub number: u64,
    pub place: u64,
    pub register: u16,
    pub size: u8,
}

pub fn live_out_answer(l: flat_read::LiveOutAnswer) -> LiveOut
    ensures { result ≡ live_out_of l }
{
    LiveOut {
        number: u64::from(l.number),
        place: l.place as u64,
        register: l.register,
        size: l.size,
    }
}
