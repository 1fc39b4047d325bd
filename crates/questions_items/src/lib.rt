// The questions by record and location or live-out number.
#![tactic(auto)]

ghost use Rattle.std.specs.Prelude.{◌≡◌, ◌+◌, ◌≤◌, length, drop};
ghost use Rattle.std.proofs.Math.ListN.{get_elem?};
ghost use Rattle.stackmap.specs.Layout.{header_size};
ghost use Rattle.stackmap.specs.Section.{is_old, record_length, read_record};
ghost use Rattle.questions.specs.Questions.{among, signed, location_answer, no_live_out, this_live_out, live_out_answer};

use questions::{LiveOutAnswer, LocationAnswer};
use questions_read::read;
use stackmap::layout;
use stackmap_tables::shape;

// A location by its record's number and its own: 10 before 11.
pub fn location(s: &[u8], wanted: u64, number: u64) -> LocationAnswer
    ensures { signed result ≡ location_answer s.now wanted number }
{
    let l = questions_locate::locate(s, wanted);
    if l.number != 0 {
        return read::no_location(l.number, l.place);
    }
    read::location_in(s, l.first, number)
}

// A refusal, with zeros in all other fields.
fn no_live_out(number: u8, place: usize) -> LiveOutAnswer
    ensures { result ≡ no_live_out number place }
{
    LiveOutAnswer {
        number,
        place,
        register: 0,
        size: 0,
    }
}

// The live-out `number` of the record at `first`, or 11.
fn live_out_in(s: &[u8], first: usize, number: u64) -> LiveOutAnswer
    requires { (header_size ≤ length s.now) × (first + record_length (is_old s.now) (drop first s.now) ≤ length s.now) }
    ensures { result ≡ among (no_live_out 11 0) this_live_out (get_elem? (read_record (is_old s.now) (drop first s.now)).live_outs number) }
{
    let shape = shape::shape_at(s, first);
    if number >= shape.outs as u64 {
        return no_live_out(11, 0);
    }
    let at = first + shape.begin + layout::LIVE_OUT_SIZE * (number as usize);
    LiveOutAnswer {
        number: 0,
        place: 0,
        register: wire::u16_at(s, at),
        size: s[at + layout::LIVE_OUT_SIZE_AT],
    }
}

// A live-out by its record's number and its own: 10 before 11.
pub fn live_out(s: &[u8], wanted: u64, number: u64) -> LiveOutAnswer
    ensures { result ≡ live_out_answer s.now wanted number }
{
    let l = questions_locate::locate(s, wanted);
    if l.number != 0 {
        return no_live_out(l.number, l.place);
    }
    live_out_in(s, l.first, number)
}
