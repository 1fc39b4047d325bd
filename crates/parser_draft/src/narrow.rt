// Refusal 28: what a listing of version 1 must not hold, as its section has no room for it.
// No entry point: it requires the counts that the survey has made of this listing.
ghost use Rattle.std.specs.Prelude.{◌≡◌, ◌+◌, ◌*◌, ◌≤◌, length};
ghost use Rattle.stackmap.specs.Verdict.{verdict};
ghost use Rattle.stackmap.specs.Fields.{many};
ghost use Rattle.listing.specs.Layout.{function_item_size, location_item_size};
ghost use Rattle.listing.specs.Listing.{listed_location, no_counts, small_sizes, all_small_sizes, old_right};
ghost use Rattle.parser_items.specs.Survey.{records_from, functions_of};
ghost use Rattle.parser_items.specs.Grammar.{Inside};

use listing::numbers;
use parser_items::{Plan, shape};
use refusals::{Cause, Refusal};

// The record counts of the first `functions` functions are 0.
fn counts(l: &[u8], functions: usize) -> Result<usize, Refusal>
    requires { function_item_size * functions ≤ length l.now }
    ensures { (verdict result ≡ no_counts (functions_of l.now functions) 0) × Inside (length l.now) (verdict result) }
{
    for i in 0..functions {
        let place = numbers::FUNCTION_ITEM_SIZE * i;
        if wire::u64_at(l, place + numbers::LISTED_RECORD_COUNT_AT) != 0 {
            return Err(Refusal(Cause::TooWide, place));
        }
    }
    Ok(numbers::FUNCTION_ITEM_SIZE * functions)
}

// The sizes of the `n` location items from `at` fit in a byte.
fn sizes(l: &[u8], at: usize, n: usize) -> Result<usize, Refusal>
    requires { at + location_item_size * n ≤ length l.now }
    ensures { (verdict result ≡ small_sizes (many listed_location location_item_size n l.now at) at) × Inside (length l.now) (verdict result) }
{
    for i in 0..n {
        let place = at + numbers::LOCATION_ITEM_SIZE * i;
        if wire::u16_at(l, place + numbers::LISTED_LOCATION_SIZE_AT) > numbers::OLD_SIZE_MOST {
            return Err(Refusal(Cause::TooWide, place));
        }
    }
    Ok(at + numbers::LOCATION_ITEM_SIZE * n)
}

// The sizes in the `records` records from the item at `from` on.
fn all_sizes(l: &[u8], from: usize, records: usize) -> Result<usize, Refusal>
    requires { (from ≤ length l.now) × (length (records_from l.now from) ≡ records) }
    ensures { (verdict result ≡ all_small_sizes (records_from l.now from) from) × Inside (length l.now) (verdict result) }
{
    let mut at = from;
    for _ in 0..records {
        let shape = shape::record_shape(l, at);
        sizes(l, at + numbers::RECORD_ITEM_SIZE, shape.locations)?;
        at = shape.stop;
    }
    Ok(at)
}

// The items of a listing whose records begin at `from`; one of version 3 may hold what it likes.
pub fn items(l: &[u8], plan: Plan, from: usize) -> Result<usize, Refusal>
    requires { (function_item_size * plan.functions ≤ length l.now) × (from ≤ length l.now) × (length (records_from l.now from) ≡ plan.records) }
    ensures { (verdict result ≡ old_right plan.old (functions_of l.now plan.functions) (records_from l.now from) from) × Inside (length l.now) (verdict result) }
{
    if plan.old {
        counts(l, plan.functions)?;
        return all_sizes(l, from, plan.records);
    }
    Ok(from)
}
