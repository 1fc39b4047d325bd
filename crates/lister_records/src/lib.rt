// The records, each read from its own stretch of the section: how long they are in the listing, and their items.
// No entry point: the section is accepted and the output long enough before these are called.
#![tactic(auto)]

ghost use Rattle.std.specs.Prelude.{◌≡◌, ◌+◌, ◌≤◌, length};
ghost use Rattle.stackmap.specs.Fields.{size, all};
ghost use Rattle.stackmap.specs.Section.{record_fields, record_length, read_record, read_records};
ghost use Rattle.listing.specs.Listing.{record_items};
ghost use Rattle.lister_items.specs.Put.{Put};

use lister_items::{items, runs};
use listing::numbers;
use stackmap::layout;
use stackmap_tables::shape;

// How long the items of the `count` records from `at` are.
pub fn records_length(s: &[u8], old: bool, at: usize, count: usize) -> usize
    requires { at + size (all (record_fields old) (read_records old count s.now at)) ≤ length s.now }
    ensures { result ≡ size (all record_items (read_records old count s.now at)) }
{
    let mut p = at;
    let mut total: usize = 0;
    for _ in 0..count {
        let shape = shape::record_shape(&s[p..], old);
        total += numbers::RECORD_ITEM_SIZE
            + numbers::LOCATION_ITEM_SIZE * shape.locations
            + numbers::LIVE_OUT_ITEM_SIZE * shape.outs;
        p += shape.size;
    }
    total
}

// A record that has been passed: its length, and where the next item begins.
#[derive(Clone, Copy)]
struct Passed {
    length: usize,
    next: usize,
}

// The record at the start of `s`, with its locations and then its live-outs.
fn put_record(s: &[u8], old: bool, out: &mut [u8], to: usize) -> Passed
    requires { (record_length old s.now ≤ length s.now) × (to + size (record_items (read_record old s.now)) ≤ length out.old) }
    ensures { (result.length ≡ record_length old s.now) × Put out.old out.new to result.next (record_items (read_record old s.now)) }
{
    let shape = shape::record_shape(s, old);
    let mut next = items::put_record_item(s, out, to);
    next = runs::put_locations(s, old, layout::RECORD_HEAD_SIZE, shape.locations, out, next);
    next = runs::put_live_outs(s, shape.begin, shape.outs, out, next);
    Passed {
        length: shape.size,
        next,
    }
}

// The `count` records from `at`.
pub fn put_records(s: &[u8], old: bool, at: usize, count: usize, out: &mut [u8], to: usize) -> usize
    requires { (at + size (all (record_fields old) (read_records old count s.now at)) ≤ length s.now) × (to + size (all record_items (read_records old count s.now at)) ≤ length out.old) }
    ensures { Put out.old out.new to result (all record_items (read_records old count s.now at)) }
{
    let mut p = at;
    let mut next = to;
    for _ in 0..count {
        let passed = put_record(&s[p..], old, out, next);
        p += passed.length;
        next = passed.next;
    }
    next
}
