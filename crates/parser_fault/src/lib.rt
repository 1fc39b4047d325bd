// The refusals that the built section would get, said of the listing's items: 6, 7 and 8. A place is one of the section, which
// is of version 1 where `old` is true.
// No entry point: it requires a listing whose grammar 22 has passed.
#![tactic(auto)]

ghost use Rattle.std.specs.Prelude.{◌≡◌, false, ◌+◌, ◌*◌, ◌≤◌, length};
ghost use Rattle.stackmap.specs.Layout.{location_size, section_most};
ghost use Rattle.stackmap.specs.Verdict.{verdict, shift};
ghost use Rattle.stackmap.specs.Fields.{many};
ghost use Rattle.stackmap.specs.Fault.{location_fault, locations_fault, entry_fault};
ghost use Rattle.listing.specs.Layout.{function_item_size, location_item_size, listing_most};
ghost use Rattle.listing.specs.Listing.{listed_location};
ghost use Rattle.parser_items.specs.Count.{RecordCounted};
ghost use Rattle.parser_items.specs.Survey.{record_size};
ghost use Rattle.parser_fault.specs.Walk.{listed_owner, listed_entry};

use listing::numbers;
use parser_items::{Plan, shape};
use refusals::{Cause, Refusal};
use stackmap::layout;

// The location item at `at`; it is to stand at `place`.
fn location(l: &[u8], plan: Plan, at: usize, place: usize) -> Result<usize, Refusal>
    requires { (at + location_item_size ≤ length l.now) × (place + location_size plan.old ≤ section_most) }
    ensures { verdict result ≡ location_fault plan.old plan.constants (listed_location l.now at) place }
{
    let end = place + layout::location_size(plan.old);
    let kind = l[at + numbers::LISTED_LOCATION_KIND_AT];
    if kind < layout::KIND_LEAST || kind > layout::KIND_MOST {
        return Err(Refusal(Cause::UnknownKind, place));
    }
    if kind != layout::KIND_CONST_INDEX {
        return Ok(end);
    }
    let index = wire::u32_at(l, at + numbers::LISTED_LOCATION_OFFSET_AT);
    if index >= layout::NEGATIVE_FROM || index as usize >= plan.constants {
        return Err(Refusal(Cause::NotInPool, place));
    }
    Ok(end)
}

// The `n` location items from `at`; the first is to stand at `place`.
fn locations(l: &[u8], plan: Plan, at: usize, n: usize, place: usize) -> Result<usize, Refusal>
    requires { (at + location_item_size * n ≤ length l.now) × (place + location_size plan.old * n ≤ section_most) }
    ensures { verdict result ≡ locations_fault plan.old plan.constants (many listed_location location_item_size n l.now at) place }
{
    let step = layout::location_size(plan.old);
    for i in 0..n {
        location(
            l,
            plan,
            at + numbers::LOCATION_ITEM_SIZE * i,
            place + step * i,
        )?;
    }
    Ok(place + step * n)
}

// What a record's offset counts from: the address of its function, or 0 where it is nobody's.
fn owner_address(l: &[u8], old: bool, function: usize) -> u64
    requires { old ≡ false → function_item_size * function + function_item_size ≤ length l.now }
    ensures { result ≡ (listed_owner l.now old function).function.address }
{
    if old {
        return 0;
    }
    wire::u64_at(
        l,
        numbers::FUNCTION_ITEM_SIZE * function + numbers::LISTED_ADDRESS_AT,
    )
}

// The record item at `at`, of function number `function`, or of nobody; it is to stand at `place`.
pub fn entry(
    l: &[u8],
    plan: Plan,
    at: usize,
    shape: shape::Shape,
    function: usize,
    place: usize,
) -> Result<usize, Refusal>
    requires { RecordCounted l.now at shape.locations shape.outs shape.stop × (plan.old ≡ false → function_item_size * function + function_item_size ≤ length l.now) × (length l.now ≤ listing_most) × (place + record_size plan.old shape.locations shape.outs ≤ section_most) }
    ensures { verdict result ≡ shift place (entry_fault plan.old plan.constants (listed_entry l.now plan.old function at place)) }
{
    let address = owner_address(l, plan.old, function);
    let offset = u64::from(wire::u32_at(l, at + numbers::LISTED_INSTRUCTION_OFFSET_AT));
    if offset > layout::ADDRESS_MOST - address {
        return Err(Refusal(Cause::AddressOverflow, place));
    }
    locations(
        l,
        plan,
        at + numbers::RECORD_ITEM_SIZE,
        shape.locations,
        place + layout::RECORD_HEAD_SIZE,
    )?;
    Ok(place + shape::record_size(plan.old, shape))
}
