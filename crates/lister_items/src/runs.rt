// Runs of items of one kind. Each function answers where the next item begins.
// No entry point: each function requires that what it reads and writes is inside, as `to_listing` has shown before the first
// write.
ghost use Rattle.std.specs.Prelude.{◌+◌, ◌*◌, ◌≤◌, length};
ghost use Rattle.stackmap.specs.Fields.{all, many};
ghost use Rattle.stackmap.specs.Layout.{function_size, constant_size, location_size, live_out_size};
ghost use Rattle.stackmap.specs.Section.{read_function, read_constant, read_location, read_live_out};
ghost use Rattle.listing.specs.Layout.{function_item_size, constant_item_size, location_item_size, live_out_item_size};
ghost use Rattle.listing.specs.Listing.{function_item, constant_item, location_item, live_out_item};
ghost use Rattle.lister_items.specs.Put.{Put, fields_of};

use crate::items::{Constant, Function, Item, LiveOut, Location};

// The `count` items of this kind from `at`.
fn put_items<T: Item>(
    item: &T,
    s: &[u8],
    at: usize,
    count: usize,
    out: &mut [u8],
    to: usize,
) -> usize
    requires { (at + T.section_size item.now * count ≤ length s.now) × (to + T.listing_size * count ≤ length out.old) }
    ensures { Put out.old out.new to result (fields_of (T.fields item.now) (T.section_size item.now) count s.now at) }
{
    let step = item.section_size();
    let mut next = to;
    for i in 0..count {
        next = item.put(s, at + step * i, out, next);
    }
    next
}

// The `count` functions from `at`.
pub fn put_functions(
    s: &[u8],
    old: bool,
    at: usize,
    count: usize,
    out: &mut [u8],
    to: usize,
) -> usize
    requires { (at + function_size old * count ≤ length s.now) × (to + function_item_size * count ≤ length out.old) }
    ensures { Put out.old out.new to result (all function_item (many (read_function old) (function_size old) count s.now at)) }
{
    put_items(&Function { old }, s, at, count, out, to)
}

// The `count` constants from `at`.
pub fn put_constants(s: &[u8], at: usize, count: usize, out: &mut [u8], to: usize) -> usize
    requires { (at + constant_size * count ≤ length s.now) × (to + constant_item_size * count ≤ length out.old) }
    ensures { Put out.old out.new to result (all constant_item (many read_constant constant_size count s.now at)) }
{
    put_items(&Constant, s, at, count, out, to)
}

// The `count` locations from `at`.
pub fn put_locations(
    s: &[u8],
    old: bool,
    at: usize,
    count: usize,
    out: &mut [u8],
    to: usize,
) -> usize
    requires { (at + location_size old * count ≤ length s.now) × (to + location_item_size * count ≤ length out.old) }
    ensures { Put out.old out.new to result (all location_item (many (read_location old) (location_size old) count s.now at)) }
{
    put_items(&Location { old }, s, at, count, out, to)
}

// The `count` live-outs from `at`.
pub fn put_live_outs(s: &[u8], at: usize, count: usize, out: &mut [u8], to: usize) -> usize
    requires { (at + live_out_size * count ≤ length s.now) × (to + live_out_item_size * count ≤ length out.old) }
    ensures { Put out.old out.new to result (all live_out_item (many read_live_out live_out_size count s.now at)) }
{
    put_items(&LiveOut, s, at, count, out, to)
}
