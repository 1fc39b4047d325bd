// Items of a listing, written as items of a section, which is of version 1 where `old` is true. Each function writes its
// item's bytes and nothing else, and requires that they are inside: `to_section` has shown it before the first write.
ghost use Rattle.std.specs.Prelude.{◌≡◌, ℕ, true, false, ◌+◌, ◌≤◌, List, length};
ghost use Rattle.std.proofs.lemmas.List.Edits.{sets};
ghost use Rattle.wire.specs.Word.{bytes};
ghost use Rattle.stackmap.specs.Layout.{function_size, constant_size, location_size, live_out_size};
ghost use Rattle.stackmap.specs.Fields.{Field, bytes_of, size};
ghost use Rattle.stackmap.specs.Section.{function_fields, constant_fields, location_fields, live_out_fields};
ghost use Rattle.stackmap.proofs.Items.{function-size, constant-size, location_size_lem, live_out_size_lem};
ghost use Rattle.listing.specs.Layout.{function_item_size, constant_item_size, location_item_size, live_out_item_size};
ghost use Rattle.listing.specs.Listing.{listed_function, listed_constant, listed_location, listed_live_out};

use listing::numbers;
use stackmap::layout;

// A kind of item that stands many times in a row, in the listing and in the section.
pub trait Item {
    // Its bytes in the listing and in the section, and what is written for the one at a place.
    ghost listing_size: { ℕ };

    ghost section_size: { Self → ℕ };

    ghost fields: { Self → List ℕ → ℕ → List Field };

    fn listing_size(&self) -> usize
        ensures { result ≡ listing_size };

    fn section_size(&self) -> usize
        ensures { result ≡ section_size self.now };

    fn put(&self, l: &[u8], at: usize, out: &mut [u8], to: usize)
        requires { (at + listing_size ≤ length l.now) × (to + section_size self.now ≤ length out.old) }
        ensures { out.new ≡ sets out.old to (bytes_of (fields self.now l.now at)) };

    ghost even: { (item : Self) (l : List ℕ) (at : ℕ) → size (fields item l at) ≡ section_size item };
}

// A function: address, stack size, and the record count, which version 1 does not state.
#[derive(Clone, Copy)]
pub struct Function {
    pub old: bool,
}

#[derive(Clone, Copy)]
pub struct Constant;

// A location. In version 1: kind and the size's low byte, register, offset; in version 3: kind and a zero, size and register,
// two zeros, offset.
#[derive(Clone, Copy)]
pub struct Location {
    pub old: bool,
}

// A live-out: register, a zero, size.
#[derive(Clone, Copy)]
pub struct LiveOut;

// `n` zero bytes at `to`.
pub fn zeros(out: &mut [u8], to: usize, n: usize)
    requires { to + n ≤ length out.old }
    ensures { out.new ≡ sets out.old to (bytes n 0) }
{
    out[to..to + n].fill(0);
}

impl Item for Function {
    ghost listing_size = { function_item_size };

    ghost section_size = { λ item. function_size item.old };

    ghost fields = { λ item l at. function_fields item.old (listed_function l at) };

    ghost even = { λ item l at. function-size item.old (listed_function l at) };

    fn listing_size(&self) -> usize {
        numbers::FUNCTION_ITEM_SIZE
    }

    fn section_size(&self) -> usize {
        layout::function_size(self.old)
    }

    fn put(&self, l: &[u8], at: usize, out: &mut [u8], to: usize) {
        let address = wire::u64_at(l, at + numbers::LISTED_ADDRESS_AT);
        let stack_size = wire::u64_at(l, at + numbers::LISTED_STACK_SIZE_AT);
        wire::put_u64(out, to, address);
        wire::put_u64(out, to + layout::STACK_SIZE_AT, stack_size);
        if self.old {
            return;
        }
        let records = wire::u64_at(l, at + numbers::LISTED_RECORD_COUNT_AT);
        wire::put_u64(out, to + layout::RECORD_COUNT_AT, records);
    }
}

impl Item for Constant {
    ghost listing_size = { constant_item_size };

    ghost section_size = { λ item. constant_size };

    ghost fields = { λ item l at. constant_fields (listed_constant l at) };

    ghost even = { λ item l at. constant-size (listed_constant l at) };

    fn listing_size(&self) -> usize {
        numbers::CONSTANT_ITEM_SIZE
    }

    fn section_size(&self) -> usize {
        layout::CONSTANT_SIZE
    }

    fn put(&self, l: &[u8], at: usize, out: &mut [u8], to: usize) {
        wire::put_u64(out, to, wire::u64_at(l, at + numbers::LISTED_CONSTANT_AT));
    }
}

impl Item for Location {
    ghost listing_size = { location_item_size };

    ghost section_size = { λ item. location_size item.old };

    ghost fields = { λ item l at. location_fields item.old (listed_location l at) };

    ghost even = { λ item l at. location_size_lem item.old (listed_location l at) };

    fn listing_size(&self) -> usize {
        numbers::LOCATION_ITEM_SIZE
    }

    fn section_size(&self) -> usize {
        layout::location_size(self.old)
    }

    fn put(&self, l: &[u8], at: usize, out: &mut [u8], to: usize) {
        let offset = wire::u32_at(l, at + numbers::LISTED_LOCATION_OFFSET_AT);
        if self.old {
            let kind_and_size = wire::u16_at(l, at + numbers::LISTED_LOCATION_KIND_AT);
            let register = wire::u16_at(l, at + numbers::LISTED_LOCATION_REGISTER_AT);
            wire::put_u16(out, to, kind_and_size);
            wire::put_u16(out, to + layout::OLD_LOCATION_REGISTER_AT, register);
            wire::put_u32(out, to + layout::OLD_LOCATION_OFFSET_AT, offset);
        } else {
            let kind = u16::from(l[at + numbers::LISTED_LOCATION_KIND_AT]);
            let size_and_register = wire::u32_at(l, at + numbers::LISTED_LOCATION_SIZE_AT);
            wire::put_u16(out, to, kind);
            wire::put_u32(out, to + layout::LOCATION_SIZE_AT, size_and_register);
            wire::put_u16(out, to + layout::LOCATION_ZEROS_AT, 0);
            wire::put_u32(out, to + layout::LOCATION_OFFSET_AT, offset);
        }
    }
}

impl Item for LiveOut {
    ghost listing_size = { live_out_item_size };

    ghost section_size = { λ item. live_out_size };

    ghost fields = { λ item l at. live_out_fields (listed_live_out l at) };

    ghost even = { λ item l at. live_out_size_lem (listed_live_out l at) };

    fn listing_size(&self) -> usize {
        numbers::LIVE_OUT_ITEM_SIZE
    }

    fn section_size(&self) -> usize {
        layout::LIVE_OUT_SIZE
    }

    fn put(&self, l: &[u8], at: usize, out: &mut [u8], to: usize) {
        let register = wire::u16_at(l, at + numbers::LISTED_LIVE_OUT_REGISTER_AT);
        wire::put_u16(out, to, register);
        out[to + layout::LIVE_OUT_ZERO_AT] = 0;
        out[to + layout::LIVE_OUT_SIZE_AT] = l[at + numbers::LISTED_LIVE_OUT_SIZE_AT];
    }
}
