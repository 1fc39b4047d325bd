// One item of a listing, written from what stands in the section. Each function answers where the next item begins.
// No entry point: each function requires that what it reads and writes is inside, as `to_listing` has shown before the first
// write.
ghost use Rattle.std.specs.Prelude.{◌≡◌, ℕ, Bool, true, false, ◌+◌, ◌≤◌, List, length};
ghost use Rattle.stackmap.specs.Fields.{Field, size};
ghost use Rattle.stackmap.specs.Layout.{function_size, constant_size, record_head_size, location_size, live_out_size};
ghost use Rattle.stackmap.specs.Section.{read_function, read_constant, read_record, read_location, read_live_out};
ghost use Rattle.listing.specs.Layout.{function_item_size, constant_item_size, record_item_size, location_item_size, live_out_item_size};
ghost use Rattle.listing.specs.Listing.{version_length, version_item, function_item, constant_item, record_item, location_item, live_out_item};
ghost use Rattle.listing.proofs.Items.{function_item-size, constant_item-size, location_item-size, live_out_item-size};
ghost use Rattle.lister_items.specs.Put.{Put};

use listing::numbers;
use stackmap::layout;

// A kind of item that stands many times in a row, in the section and in the listing.
pub trait Item {
    // Its bytes in the section and in the listing, and what is written for the one at a place.
    ghost section_size: { Self → ℕ };

    ghost listing_size: { ℕ };

    ghost fields: { Self → List ℕ → ℕ → List Field };

    fn section_size(&self) -> usize
        ensures { result ≡ section_size self.now };

    fn put(&self, s: &[u8], at: usize, out: &mut [u8], to: usize) -> usize
        requires { (at + section_size self.now ≤ length s.now) × (to + listing_size ≤ length out.old) }
        ensures { Put out.old out.new to result (fields self.now s.now at) };

    ghost even: { (item : Self) (s : List ℕ) (at : ℕ) → size (fields item s at) ≡ listing_size };
}

// A function: address (8), stack size (8), record count (8).
#[derive(Clone, Copy)]
pub struct Function {
    pub old: bool,
}

// A constant (8).
#[derive(Clone, Copy)]
pub struct Constant;

// A location: kind (1), size (2), register (2), offset (4).
#[derive(Clone, Copy)]
pub struct Location {
    pub old: bool,
}

// A live-out: register (2), size (1).
#[derive(Clone, Copy)]
pub struct LiveOut;

// The version's item at the start of the output, in version 1 only.
pub fn put_version(old: bool, out: &mut [u8]) -> usize
    requires { version_length old ≤ length out.old }
    ensures { Put out.old out.new 0 result (version_item old) }
{
    if old {
        out[0] = numbers::VERSION_KIND;
        out[1] = layout::OLD_VERSION;
        return numbers::VERSION_ITEM_SIZE;
    }
    0
}

// The record count of the function at `at`: 0 in version 1, which states none.
fn record_count(s: &[u8], old: bool, at: usize) -> u64
    requires { at + function_size old ≤ length s.now }
    ensures { result ≡ (read_function old s.now at).count }
{
    if old {
        return 0;
    }
    wire::u64_at(s, at + layout::RECORD_COUNT_AT)
}

impl Item for Function {
    ghost section_size = { λ item. function_size item.old };

    ghost listing_size = { function_item_size };

    ghost fields = { λ item s at. function_item (read_function item.old s at) };

    ghost even = { λ item s at. function_item-size (read_function item.old s at) };

    fn section_size(&self) -> usize {
        layout::function_size(self.old)
    }

    fn put(&self, s: &[u8], at: usize, out: &mut [u8], to: usize) -> usize {
        out[to] = numbers::FUNCTION_KIND;
        wire::put_u64(out, to + 1, wire::u64_at(s, at));
        wire::put_u64(out, to + 9, wire::u64_at(s, at + layout::STACK_SIZE_AT));
        wire::put_u64(out, to + 17, record_count(s, self.old, at));
        to + numbers::FUNCTION_ITEM_SIZE
    }
}

impl Item for Constant {
    ghost section_size = { λ item. constant_size };

    ghost listing_size = { constant_item_size };

    ghost fields = { λ item s at. constant_item (read_constant s at) };

    ghost even = { λ item s at. constant_item-size (read_constant s at) };

    fn section_size(&self) -> usize {
        layout::CONSTANT_SIZE
    }

    fn put(&self, s: &[u8], at: usize, out: &mut [u8], to: usize) -> usize {
        out[to] = numbers::CONSTANT_KIND;
        wire::put_u64(out, to + 1, wire::u64_at(s, at));
        to + numbers::CONSTANT_ITEM_SIZE
    }
}

impl Item for Location {
    ghost section_size = { λ item. location_size item.old };

    ghost listing_size = { location_item_size };

    ghost fields = { λ item s at. location_item (read_location item.old s at) };

    ghost even = { λ item s at. location_item-size (read_location item.old s at) };

    fn section_size(&self) -> usize {
        layout::location_size(self.old)
    }

    // The size is one byte in version 1.
    fn put(&self, s: &[u8], at: usize, out: &mut [u8], to: usize) -> usize {
        let (size, register_at, offset_at) = if self.old {
            (
                u16::from(s[at + layout::OLD_LOCATION_SIZE_AT]),
                at + layout::OLD_LOCATION_REGISTER_AT,
                at + layout::OLD_LOCATION_OFFSET_AT,
            )
        } else {
            (
                wire::u16_at(s, at + layout::LOCATION_SIZE_AT),
                at + layout::LOCATION_REGISTER_AT,
                at + layout::LOCATION_OFFSET_AT,
            )
        };
        out[to] = numbers::LOCATION_KIND;
        out[to + 1] = s[at];
        wire::put_u16(out, to + 2, size);
        wire::put_u16(out, to + 4, wire::u16_at(s, register_at));
        wire::put_u32(out, to + 6, wire::u32_at(s, offset_at));
        to + numbers::LOCATION_ITEM_SIZE
    }
}

impl Item for LiveOut {
    ghost section_size = { λ item. live_out_size };

    ghost listing_size = { live_out_item_size };

    ghost fields = { λ item s at. live_out_item (read_live_out s at) };

    ghost even = { λ item s at. live_out_item-size (read_live_out s at) };

    fn section_size(&self) -> usize {
        layout::LIVE_OUT_SIZE
    }

    fn put(&self, s: &[u8], at: usize, out: &mut [u8], to: usize) -> usize {
        out[to] = numbers::LIVE_OUT_KIND;
        wire::put_u16(out, to + 1, wire::u16_at(s, at));
        out[to + 3] = s[at + layout::LIVE_OUT_SIZE_AT];
        to + numbers::LIVE_OUT_ITEM_SIZE
    }
}

// The record at the start of `s`, without its locations and live-outs: ID (8), offset (4), in both versions.
pub fn put_record_item(s: &[u8], out: &mut [u8], to: usize) -> usize
    requires { (record_head_size ≤ length s.now) × (to + record_item_size ≤ length out.old) }
    ensures { (old : Bool) → Put out.old out.new to result (record_item (read_record old s.now)) }
{
    out[to] = numbers::RECORD_KIND;
    wire::put_u64(out, to + 1, wire::u64_at(s, 0));
    wire::put_u32(out, to + 9, wire::u32_at(s, layout::INSTRUCTION_OFFSET_AT));
    to + numbers::RECORD_ITEM_SIZE
}
