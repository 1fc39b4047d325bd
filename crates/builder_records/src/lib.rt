// Records, written to the output, in the layout of version 1 where `old` is true. Each function writes its bytes and nothing else, and
// requires that they are inside: `to_section` has shown it before the first write. The listing is what follows the version's item.
#![tactic(auto)]

ghost use Rattle.std.specs.Prelude.{◌≡◌, ◌+◌, ◌≤◌, length};
ghost use Rattle.std.proofs.lemmas.List.Edits.{sets};
ghost use Rattle.stackmap.specs.Layout.{record_head_size};
ghost use Rattle.stackmap.specs.Fields.{bytes_of, size, all};
ghost use Rattle.stackmap.specs.Section.{record_fields};
ghost use Rattle.listing.specs.Layout.{record_item_size, items_most, listing_most};
ghost use Rattle.listing.specs.Listing.{listed_record};
ghost use Rattle.parser_items.specs.Count.{RecordCounted};
ghost use Rattle.parser_items.specs.Survey.{record_size, records_from};
ghost use Rattle.parser_items.specs.Draft.{Ready};
ghost use Rattle.builder_records.specs.Put.{head_fields};

use builder_items::{item, runs};
use listing::numbers;
use parser_items::shape;
use stackmap::layout;

// The head of the record item at `at`: ID, instruction offset, flags, number of locations.
fn head(l: &[u8], at: usize, n: usize, out: &mut [u8], to: usize)
    requires { (at + record_item_size ≤ length l.now) × (n ≤ items_most) × (to + record_head_size ≤ length out.old) }
    ensures { out.new ≡ sets out.old to (bytes_of (head_fields l.now at n)) }
{
    let id = wire::u64_at(l, at + numbers::LISTED_ID_AT);
    let offset = wire::u32_at(l, at + numbers::LISTED_INSTRUCTION_OFFSET_AT);
    wire::put_u64(out, to, id);
    wire::put_u32(out, to + layout::INSTRUCTION_OFFSET_AT, offset);
    wire::put_u16(out, to + layout::FLAGS_AT, 0);
    wire::put_u16(out, to + layout::NUM_LOCATIONS_AT, n as u16);
}

// The record item at `at` with its locations and live-outs, and the paddings after both.
#[tactic(auto, using(crate::proofs::RecordPut::scaled))]
fn whole_record(l: &[u8], old: bool, at: usize, shape: shape::Shape, out: &mut [u8], to: usize)
    requires { RecordCounted l.now at shape.locations shape.outs shape.stop × (shape.locations ≤ items_most) × (shape.outs ≤ items_most) × (to + record_size old shape.locations shape.outs ≤ length out.old) }
    ensures { out.new ≡ sets out.old to (bytes_of (record_fields old (listed_record l.now at))) }
{
    let n = shape.locations;
    let m = shape.outs;
    let first = at + numbers::RECORD_ITEM_SIZE;
    let next = first + numbers::LOCATION_ITEM_SIZE * n;
    let pad = to + layout::RECORD_HEAD_SIZE + layout::location_size(old) * n;
    let padding = layout::locations_padding(old, n);
    let end = pad + padding;
    let outs = end + layout::LIVE_OUTS_HEAD_SIZE;
    let last = outs + layout::LIVE_OUT_SIZE * m;
    head(l, at, n, out, to);
    runs::locations(l, old, first, n, out, to + layout::RECORD_HEAD_SIZE);
    item::zeros(out, pad, padding + layout::LIVE_OUTS_HEAD_ZEROS);
    wire::put_u16(out, end + layout::LIVE_OUTS_HEAD_ZEROS, m as u16);
    runs::live_outs(l, next, m, out, outs);
    item::zeros(out, last, (m + 1) % 2 * 4);
}

// The `n` records from the item at `from` on.
pub fn records(l: &[u8], old: bool, from: usize, n: usize, out: &mut [u8], to: usize)
    requires { Ready l.now from n × (length l.now ≤ listing_most) × (to + size (all (record_fields old) (records_from l.now from)) ≤ length out.old) }
    ensures { out.new ≡ sets out.old to (bytes_of (all (record_fields old) (records_from l.now from))) }
{
    let mut at = from;
    let mut next = to;
    for _ in 0..n {
        let shape = shape::record_shape(l, at);
        whole_record(l, old, at, shape, out, next);
        next += shape::record_size(old, shape);
        at = shape.stop;
    }
}
