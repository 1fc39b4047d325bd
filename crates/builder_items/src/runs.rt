// Runs of items of one kind, each written in the section's layout, which is that of version 1 where `old` is true.
// No entry point: `builder` shows that the items are inside the listing and that the output is long enough.
ghost use Rattle.std.specs.Prelude.{◌≡◌, ◌+◌, ◌*◌, ◌≤◌, length};
ghost use Rattle.std.proofs.lemmas.List.Edits.{sets};
ghost use Rattle.stackmap.specs.Layout.{function_size, constant_size, location_size, live_out_size};
ghost use Rattle.stackmap.specs.Fields.{bytes_of, all, many};
ghost use Rattle.stackmap.specs.Section.{function_fields, constant_fields, location_fields, live_out_fields};
ghost use Rattle.listing.specs.Layout.{function_item_size, constant_item_size, location_item_size, live_out_item_size};
ghost use Rattle.listing.specs.Listing.{listed_function, listed_constant, listed_location, listed_live_out};
ghost use Rattle.builder_items.specs.Run.{fields_of};

use crate::item::{Constant, Function, Item, LiveOut, Location};

// The `n` items of this kind from `at`.
fn items<T: Item>(item: &T, l: &[u8], at: usize, n: usize, out: &mut [u8], to: usize)
    requires { (at + T.listing_size * n ≤ length l.now) × (to + T.section_size item.now * n ≤ length out.old) }
    ensures { out.new ≡ sets out.old to (bytes_of (fields_of (T.fields item.now) T.listing_size n l.now at)) }
{
    let from = item.listing_size();
    let step = item.section_size();
    for i in 0..n {
        item.put(l, at + from * i, out, to + step * i);
    }
}

// The `n` function items from `at`.
pub fn functions(l: &[u8], old: bool, at: usize, n: usize, out: &mut [u8], to: usize)
    requires { (at + function_item_size * n ≤ length l.now) × (to + function_size old * n ≤ length out.old) }
    ensures { out.new ≡ sets out.old to (bytes_of (all (function_fields old) (many listed_function function_item_size n l.now at))) }
{
    items(&Function { old }, l, at, n, out, to);
}

// The `n` constant items from `at`.
pub fn constants(l: &[u8], at: usize, n: usize, out: &mut [u8], to: usize)
    requires { (at + constant_item_size * n ≤ length l.now) × (to + constant_size * n ≤ length out.old) }
    ensures { out.new ≡ sets out.old to (bytes_of (all constant_fields (many listed_constant constant_item_size n l.now at))) }
{
    items(&Constant, l, at, n, out, to);
}

// The `n` location items from `at`.
pub fn locations(l: &[u8], old: bool, at: usize, n: usize, out: &mut [u8], to: usize)
    requires { (at + location_item_size * n ≤ length l.now) × (to + location_size old * n ≤ length out.old) }
    ensures { out.new ≡ sets out.old to (bytes_of (all (location_fields old) (many listed_location location_item_size n l.now at))) }
{
    items(&Location { old }, l, at, n, out, to);
}

// The `n` live-out items from `at`.
pub fn live_outs(l: &[u8], at: usize, n: usize, out: &mut [u8], to: usize)
    requires { (at + live_out_item_size * n ≤ length l.now) × (to + live_out_size * n ≤ length out.old) }
    ensures { out.new ≡ sets out.old to (bytes_of (all live_out_fields (many listed_live_out live_out_item_size n l.now at))) }
{
    items(&LiveOut, l, at, n, out, to);
}
