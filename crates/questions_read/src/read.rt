// A location of a record, by its number.
// No entry point: it requires a record that stands there, for callers that have found it.
ghost use Rattle.std.specs.Prelude.{◌≡◌, ◌+◌, ◌≤◌, length, drop};
ghost use Rattle.std.proofs.Math.ListN.{get_elem?};
ghost use Rattle.stackmap.specs.Section.{records_at, is_old, record_length, read_record, read_section};
ghost use Rattle.questions.specs.Questions.{among, no_location, this_location};

use questions::{ContentPlace, LocationAnswer};
use questions_content::{constant, content_place, location_fields};
use stackmap::layout;
use stackmap_tables::tables;

// A refusal, with zeros and no content place in all other fields.
pub fn no_location(number: u8, place: usize) -> LocationAnswer
    ensures { result ≡ no_location number place }
{
    LocationAnswer {
        number,
        place,
        kind: 0,
        size: 0,
        register: 0,
        offset: 0,
        constant: 0,
        content: ContentPlace::Nowhere,
    }
}

// The location `number` of the record at `first`, or 11.
pub fn location_in(s: &[u8], first: usize, number: u64) -> LocationAnswer
    requires { (records_at s.now ≤ length s.now) × (first + record_length (is_old s.now) (drop first s.now) ≤ length s.now) }
    ensures { result ≡ among (no_location 11 0) (this_location (read_section s.now).constants) (get_elem? (read_record (is_old s.now) (drop first s.now)).locations number) }
{
    let count = u64::from(wire::u16_at(s, first + layout::NUM_LOCATIONS_AT));
    if number >= count {
        return no_location(11, 0);
    }
    let old = tables::is_old(s);
    let at = first + layout::RECORD_HEAD_SIZE + layout::location_size(old) * (number as usize);
    let l = location_fields(s, old, at);
    LocationAnswer {
        number: 0,
        place: 0,
        kind: l.kind,
        size: l.size,
        register: l.register,
        offset: l.offset,
        constant: constant(s, l.kind, l.offset),
        content: content_place(l.kind),
    }
}
