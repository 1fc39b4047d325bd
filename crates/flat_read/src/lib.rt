// Questions on a flat section by number. The functions that are not `pub` are no entry points: they require that their item is inside.
#![tactic(auto)]

ghost use Rattle.std.specs.Prelude.{◌≡◌, ◌+◌, ◌≤◌, length, MatchResult};
ghost use Rattle.flat_check.specs.Check.{Accepted};
ghost use Rattle.flat_read.specs.Code.{count_of, start_of, size_of, missing_of, Placed, Missed};
ghost use Rattle.flat.specs.Layout.{constant_size, frame_size, register_size, record_size, location_size, live_out_size};
ghost use Rattle.flat_data.specs.Data.{read_constant, read_frame, read_register, read_record, read_location, read_live_out};
ghost use Rattle.flat_read.specs.Read.{no_constant, this_constant, constant_answer, no_frame, this_frame, frame_answer, no_register, this_register, register_answer, no_record, this_record, record_answer, no_location, this_location, location_answer, no_live_out, this_live_out, live_out_answer};

use flat::{layout, offsets};

// The arrays of a section.
#[derive(Clone, Copy)]
enum Array {
    Constants,
    Frames,
    Registers,
    Records,
    Locations,
    LiveOuts,
}

impl Array {
    // How many items it has.
    #[tactic(auto, using(flat_check::proofs::Accept::accepted_least, flat_check::proofs::Accept::accepted_arranged))]
    fn count(self, s: &[u8]) -> usize
        requires { Accepted s.now }
        ensures { result ≡ count_of self s.now }
    {
        match self {
            Array::Constants => offsets::num_constants(s),
            Array::Frames => offsets::num_frames(s),
            Array::Registers => offsets::num_registers(s),
            Array::Records => offsets::num_records(s),
            Array::Locations => offsets::num_locations(s),
            Array::LiveOuts => offsets::num_live_outs(s),
        }
    }

    // Where its items begin.
    #[tactic(auto, using(flat_check::proofs::Accept::accepted_least, flat_check::proofs::Accept::accepted_arranged))]
    fn start(self, s: &[u8]) -> usize
        requires { Accepted s.now }
        ensures { result ≡ start_of self s.now }
    {
        match self {
            Array::Constants => layout::SECTION_LEAST,
            Array::Frames => offsets::offset(s, layout::FRAMES_OFFSET_AT),
            Array::Registers => offsets::offset(s, layout::REGISTERS_OFFSET_AT),
            Array::Records => offsets::offset(s, layout::RECORDS_OFFSET_AT),
            Array::Locations => offsets::offset(s, layout::LOCATIONS_OFFSET_AT),
            Array::LiveOuts => offsets::offset(s, layout::LIVE_OUTS_OFFSET_AT),
        }
    }

    // The size of each.
    fn size(self) -> usize
        ensures { result ≡ size_of self }
    {
        match self {
            Array::Constants => layout::CONSTANT_SIZE,
            Array::Frames => layout::FRAME_SIZE,
            Array::Registers => layout::REGISTER_SIZE,
            Array::Records => layout::RECORD_SIZE,
            Array::Locations => layout::LOCATION_SIZE,
            Array::LiveOuts => layout::LIVE_OUT_SIZE,
        }
    }

    // The refusal where it has no such item.
    fn missing(self) -> u8
        ensures { result ≡ missing_of self }
    {
        match self {
            Array::Frames | Array::Records => 10,
            _ => 11,
        }
    }
}

// Where the item k of an array stands, or the refusal: the section's own first.
fn place(s: &[u8], array: Array, k: u64) -> Result<usize, u8>
    ensures { MatchResult result (λ at. Placed array s.now k at) (λ n. Missed array s.now k n) }
{
    let refusal = flat_check::check(s);
    if refusal != 0 {
        return Err(refusal);
    }
    if k >= array.count(s) as u64 {
        return Err(array.missing());
    }
    Ok(array.start(s) + array.size() * (k as usize))
}

// Kept: each of the six answers has a refusal's number and place beside its fields, as the definitions that the contracts equal have them for C.
#[derive(Clone, Copy, Default)]
pub struct ConstantAnswer {
    pub number: u8,
    pub place: usize,
    pub value: u64,
}

fn no_constant(number: u8) -> ConstantAnswer
    ensures { result ≡ no_constant number }
{
    ConstantAnswer {
        number,
        ..ConstantAnswer::default()
    }
}

// The constant that stands at a place.
fn constant_at(s: &[u8], at: usize) -> ConstantAnswer
    requires { at + constant_size ≤ length s.now }
    ensures { result ≡ this_constant (read_constant s.now at) }
{
    ConstantAnswer {
        number: 0,
        place: 0,
        value: wire::u64_at(s, at),
    }
}

// The constant k of the whole array.
pub fn constant(s: &[u8], k: u64) -> ConstantAnswer
    ensures { result ≡ constant_answer s.now k }
{
    match place(s, Array::Constants, k) {
        Ok(at) => constant_at(s, at),
        Err(number) => no_constant(number),
    }
}

#[derive(Clone, Copy, Default)]
pub struct FrameAnswer {
    pub number: u8,
    pub place: usize,
    pub address: u64,
    pub size: u32,
    pub stack: u32,
    pub flags: u16,
    pub base: u16,
    pub registers: u16,
    pub registersat: u16,
    pub records: u16,
    pub recordsat: u16,
}

fn no_frame(number: u8) -> FrameAnswer
    ensures { result ≡ no_frame number }
{
    FrameAnswer {
        number,
        ..FrameAnswer::default()
    }
}

// The frame that stands at a place.
fn frame_at(s: &[u8], at: usize) -> FrameAnswer
    requires { at + frame_size ≤ length s.now }
    ensures { result ≡ this_frame (read_frame s.now at) }
{
    FrameAnswer {
        number: 0,
        place: 0,
        address: wire::u64_at(s, at),
        size: wire::u32_at(s, at + layout::FUNCTION_SIZE_AT),
        stack: wire::u32_at(s, at + layout::STACK_SIZE_AT),
        flags: wire::u16_at(s, at + layout::FRAME_FLAGS_AT),
        base: wire::u16_at(s, at + layout::BASE_REGISTER_AT),
        registers: wire::u16_at(s, at + layout::REGISTER_COUNT_AT),
        registersat: wire::u16_at(s, at + layout::REGISTER_INDEX_AT),
        records: wire::u16_at(s, at + layout::RECORD_COUNT_AT),
        recordsat: wire::u16_at(s, at + layout::RECORD_INDEX_AT),
    }
}

// The frame k of the whole array.
pub fn frame(s: &[u8], k: u64) -> FrameAnswer
    ensures { result ≡ frame_answer s.now k }
{
    match place(s, Array::Frames, k) {
        Ok(at) => frame_at(s, at),
        Err(number) => no_frame(number),
    }
}

#[derive(Clone, Copy, Default)]
pub struct RegisterAnswer {
    pub number: u8,
    pub place: usize,
    pub register: u16,
    pub offset: u16,
    pub size: u8,
    pub flags: u8,
}

fn no_register(number: u8) -> RegisterAnswer
    ensures { result ≡ no_register number }
{
    RegisterAnswer {
        number,
        ..RegisterAnswer::default()
    }
}

// The frame register that stands at a place.
fn register_at(s: &[u8], at: usize) -> RegisterAnswer
    requires { at + register_size ≤ length s.now }
    ensures { result ≡ this_register (read_register s.now at) }
{
    RegisterAnswer {
        number: 0,
        place: 0,
        register: wire::u16_at(s, at),
        offset: wire::u16_at(s, at + layout::REGISTER_OFFSET_AT),
        size: s[at + layout::REGISTER_SIZE_AT],
        flags: s[at + layout::REGISTER_FLAGS_AT],
    }
}

// The frame register k of the whole array.
pub fn register(s: &[u8], k: u64) -> RegisterAnswer
    ensures { result ≡ register_answer s.now k }
{
    match place(s, Array::Registers, k) {
        Ok(at) => register_at(s, at),
        Err(number) => no_register(number),
    }
}

#[derive(Clone, Copy, Default)]
pub struct RecordAnswer {
    pub number: u8,
    pub place: usize,
    pub id: u64,
    pub offset: u32,
    pub call: u8,
    pub flags: u8,
    pub locations: u16,
    pub locationsat: u16,
    pub liveouts: u16,
    pub liveoutsat: u16,
}

fn no_record(number: u8) -> RecordAnswer
    ensures { result ≡ no_record number }
{
    RecordAnswer {
        number,
        ..RecordAnswer::default()
    }
}

// The record that stands at a place.
fn record_at(s: &[u8], at: usize) -> RecordAnswer
    requires { at + record_size ≤ length s.now }
    ensures { result ≡ this_record (read_record s.now at) }
{
    RecordAnswer {
        number: 0,
        place: 0,
        id: wire::u64_at(s, at),
        offset: wire::u32_at(s, at + layout::INSTRUCTION_OFFSET_AT),
        call: s[at + layout::CALL_SIZE_AT],
        flags: s[at + layout::RECORD_FLAGS_AT],
        locations: wire::u16_at(s, at + layout::LOCATION_COUNT_AT),
        locationsat: wire::u16_at(s, at + layout::LOCATION_INDEX_AT),
        liveouts: wire::u16_at(s, at + layout::LIVE_OUT_COUNT_AT),
        liveoutsat: wire::u16_at(s, at + layout::LIVE_OUT_INDEX_AT),
    }
}

// The record k of the whole array.
pub fn record(s: &[u8], k: u64) -> RecordAnswer
    ensures { result ≡ record_answer s.now k }
{
    match place(s, Array::Records, k) {
        Ok(at) => record_at(s, at),
        Err(number) => no_record(number),
    }
}

#[derive(Clone, Copy, Default)]
pub struct LocationAnswer {
    pub number: u8,
    pub place: usize,
    pub kind: u8,
    pub register: u16,
    pub offset: u32,
}

fn no_location(number: u8) -> LocationAnswer
    ensures { result ≡ no_location number }
{
    LocationAnswer {
        number,
        ..LocationAnswer::default()
    }
}

// The location that stands at a place.
fn location_at(s: &[u8], at: usize) -> LocationAnswer
    requires { at + location_size ≤ length s.now }
    ensures { result ≡ this_location (read_location s.now at) }
{
    LocationAnswer {
        number: 0,
        place: 0,
        kind: s[at],
        register: wire::u16_at(s, at + layout::LOCATION_REGISTER_AT),
        offset: wire::u32_at(s, at + layout::LOCATION_OFFSET_AT),
    }
}

// The location k of the whole array.
pub fn location(s: &[u8], k: u64) -> LocationAnswer
    ensures { result ≡ location_answer s.now k }
{
    match place(s, Array::Locations, k) {
        Ok(at) => location_at(s, at),
        Err(number) => no_location(number),
    }
}

#[derive(Clone, Copy, Default)]
pub struct LiveOutAnswer {
    pub number: u8,
    pub place: usize,
    pub register: u16,
    pub size: u8,
}

fn no_live_out(number: u8) -> LiveOutAnswer
    ensures { result ≡ no_live_out number }
{
    LiveOutAnswer {
        number,
        ..LiveOutAnswer::default()
    }
}

// The live-out that stands at a place.
fn live_out_at(s: &[u8], at: usize) -> LiveOutAnswer
    requires { at + live_out_size ≤ length s.now }
    ensures { result ≡ this_live_out (read_live_out s.now at) }
{
    LiveOutAnswer {
        number: 0,
        place: 0,
        register: wire::u16_at(s, at),
        size: s[at + layout::LIVE_OUT_SIZE_AT],
    }
}

// The live-out k of the whole array.
pub fn live_out(s: &[u8], k: u64) -> LiveOutAnswer
    ensures { result ≡ live_out_answer s.now k }
{
    match place(s, Array::LiveOuts, k) {
        Ok(at) => live_out_at(s, at),
        Err(number) => no_live_out(number),
    }
}
