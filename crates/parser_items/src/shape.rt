// A record of a listing: how many items it has, and how many bytes in a section. For `builder`
// too, and no entry point: a record item has been seen at the place that is required.
ghost use Rattle.std.specs.Prelude.{◌≡◌, ◌+◌, ◌≤◌, length};
ghost use Rattle.listing.specs.Layout.{record_item_size, listing_most};
ghost use Rattle.parser_items.specs.Count.{RecordCounted};
ghost use Rattle.parser_items.specs.Survey.{record_size};

use crate::count;
use listing::numbers;
use stackmap::layout;

// How many locations and live-outs a record has, and where its items stop.
#[derive(Clone, Copy)]
pub struct Shape {
    pub locations: usize,
    pub outs: usize,
    pub stop: usize,
}

// The locations and the live-outs after the record item at `at`.
pub fn record_shape(l: &[u8], at: usize) -> Shape
    requires { at + record_item_size ≤ length l.now }
    ensures { RecordCounted l.now at result.locations result.outs result.stop }
{
    let first = at + numbers::RECORD_ITEM_SIZE;
    let locations = count::items(
        l,
        numbers::LOCATION_KIND,
        numbers::LOCATION_ITEM_SIZE,
        first,
    );
    let next = first + numbers::LOCATION_ITEM_SIZE * locations;
    let outs = count::items(l, numbers::LIVE_OUT_KIND, numbers::LIVE_OUT_ITEM_SIZE, next);
    let stop = next + numbers::LIVE_OUT_ITEM_SIZE * outs;
    Shape {
        locations,
        outs,
        stop,
    }
}

// The bytes of a record in a section, of version 1 where `old` is true: its head, the locations, the live-outs and the
// paddings.
pub fn record_size(old: bool, shape: Shape) -> usize
    requires { (shape.locations ≤ listing_most) × (shape.outs ≤ listing_most) }
    ensures { result ≡ record_size old shape.locations shape.outs }
{
    let locations = shape.locations;
    let outs = shape.outs;
    let pad = layout::RECORD_HEAD_SIZE + layout::location_size(old) * locations;
    let end = pad + layout::locations_padding(old, locations);
    end + layout::LIVE_OUTS_HEAD_SIZE + layout::LIVE_OUT_SIZE * outs + (outs + 1) % 2 * 4
}
