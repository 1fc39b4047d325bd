// The first match in one frame: of its records, tried one by one or by their keys. No entry points: these require an accepted section's arrays.
#![tactic(auto)]

ghost use Rattle.std.specs.Prelude.{◌≡◌, ◌+◌, ◌*◌, ◌≤◌, length};
ghost use Rattle.flat.specs.Layout.{section_least, frame_size, record_size};
ghost use Rattle.flat.specs.Places.{frames_at, records_at};
ghost use Rattle.flat_match.specs.Find.{in_frame, not_found, first_of};
ghost use Rattle.flat_match.specs.Code.{answer_of};

use flat::{layout, offsets};

pub mod keys;

// The number of a refusal, or 0 and the numbers of frame and record. The place is always 0.
// Kept: a flag beside values, since the contracts of `find` and of keys' `in_frame` equal it with definitions of this record, which C gets.
#[derive(Clone, Copy)]
pub struct MatchAnswer {
    pub number: u8,
    pub place: usize,
    pub frame: usize,
    pub index: usize,
}

pub fn not_found(number: u8) -> MatchAnswer
    ensures { result ≡ not_found number }
{
    MatchAnswer {
        number,
        place: 0,
        frame: 0,
        index: 0,
    }
}

// The answer of a lookup in one frame: the record's number beside the frame's, or 41.
fn answer(frame: usize, found: Option<usize>) -> MatchAnswer
    ensures { result ≡ answer_of frame found }
{
    match found {
        Some(index) => MatchAnswer {
            number: 0,
            place: 0,
            frame,
            index,
        },
        None => not_found(41),
    }
}

// The first of n records from k on that has the address in the frame i.
fn in_frame(s: &[u8], address: u64, i: usize, k: usize, n: usize) -> Option<usize>
    requires { (section_least ≤ length s.now) × (frames_at s.now + frame_size * i + frame_size ≤ length s.now) × (records_at s.now + record_size * (k + n) ≤ length s.now) }
    ensures { answer_of i result ≡ first_of (in_frame s.now address i k n) }
{
    let frames = offsets::offset(s, layout::FRAMES_OFFSET_AT);
    let records = offsets::offset(s, layout::RECORDS_OFFSET_AT);
    let function = wire::u64_at(s, frames + layout::FRAME_SIZE * i);
    let rest = address.checked_sub(function)?;
    for j in k..k + n {
        let offset = wire::u32_at(
            s,
            records + layout::RECORD_SIZE * j + layout::INSTRUCTION_OFFSET_AT,
        );
        if u64::from(offset) == rest {
            return Some(j);
        }
    }
    None
}
