// How a record is laid out, for the layers above.
// No entry point: it requires a record that stands there.
ghost use Rattle.std.specs.Prelude.{◌≡◌, ◌+◌, ◌≤◌, length, drop};
ghost use Rattle.stackmap.specs.Layout.{header_size};
ghost use Rattle.stackmap.specs.Section.{is_old, record_length};
ghost use Rattle.stackmap.specs.Shape.{RecordLayout};

use crate::tables;
use stackmap::layout;

const PADDING_SIZE: usize = 4;

// How many locations and live-outs a record has, where its live-outs begin, counted from its first byte, and how many bytes it takes.
#[derive(Clone, Copy)]
pub struct Shape {
    pub locations: usize,
    pub outs: usize,
    pub begin: usize,
    pub size: usize,
}

// The record at the start of `s`.
pub fn record_shape(s: &[u8], old: bool) -> Shape
    requires { record_length old s.now ≤ length s.now }
    ensures { RecordLayout old s.now result.locations result.outs result.begin result.size }
{
    let locations = wire::u16_at(s, layout::NUM_LOCATIONS_AT) as usize;
    let end = layout::RECORD_HEAD_SIZE
        + layout::location_size(old) * locations
        + layout::locations_padding(old, locations);
    let outs = wire::u16_at(s, end + layout::LIVE_OUTS_HEAD_ZEROS) as usize;
    let begin = end + layout::LIVE_OUTS_HEAD_SIZE;
    Shape {
        locations,
        outs,
        begin,
        size: begin + layout::LIVE_OUT_SIZE * outs + (outs + 1) % 2 * PADDING_SIZE,
    }
}

// The record at the place `at` of a section.
pub fn shape_at(s: &[u8], at: usize) -> Shape
    requires { (header_size ≤ length s.now) × (at + record_length (is_old s.now) (drop at s.now) ≤ length s.now) }
    ensures { RecordLayout (is_old s.now) (drop at s.now) result.locations result.outs result.begin result.size }
{
    let old = tables::is_old(s);
    record_shape(&s[at..], old)
}
