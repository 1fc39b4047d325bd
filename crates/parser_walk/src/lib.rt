// The refusals that the built section would get, over the whole listing: 1, 5, and those of each record.
// No entry point: it requires the plan that was made of this listing.
#![tactic(auto)]

ghost use Rattle.std.specs.Prelude.{◌≡◌, false, ◌+◌, ◌*◌, ◌≤◌, ◌<◌, length, eqb};
ghost use Rattle.stackmap.specs.Verdict.{verdict};
ghost use Rattle.stackmap.specs.Section.{record_owners, counted, entries_from};
ghost use Rattle.stackmap.specs.Check.{counts_right};
ghost use Rattle.stackmap.specs.Fault.{entries_fault, section_fault};
ghost use Rattle.listing.specs.Layout.{function_item_size, listing_most};
ghost use Rattle.listing.specs.Listing.{read_items};
ghost use Rattle.parser_items.specs.Survey.{records_from, Planned, functions_of};
ghost use Rattle.parser_fault.specs.Walk.{ahead, Turning, Starting, Walkable};

use listing::numbers;
use parser_items::{Plan, shape};
use refusals::{Cause, Refusal};
use stackmap::layout;

// Whether the record counts of the first `functions` functions add up to `total`, exactly.
fn counts_add_up(l: &[u8], functions: usize, total: usize) -> bool
    requires { function_item_size * functions ≤ length l.now }
    ensures { result ≡ eqb (counted (functions_of l.now functions)) total }
{
    let mut rest = total as u64;
    for i in 0..functions {
        let count = wire::u64_at(
            l,
            numbers::FUNCTION_ITEM_SIZE * i + numbers::LISTED_RECORD_COUNT_AT,
        );
        if count > rest {
            return false;
        }
        rest -= count;
    }
    rest == 0
}

// Whether refusal 5 is not given: version 1 states no record counts.
fn counts_right(l: &[u8], plan: Plan) -> bool
    requires { function_item_size * plan.functions ≤ length l.now }
    ensures { result ≡ counts_right plan.old (functions_of l.now plan.functions) plan.records }
{
    plan.old || counts_add_up(l, plan.functions, plan.records)
}

// Which function owns the next record: the one before `next`, while `left` of its records are ahead.
#[derive(Clone, Copy)]
struct Turn {
    next: usize,
    left: u64,
}

// Passes over functions that have no record left, to the owner of the next record. In version 1 one is always left, and no
// function is read.
fn owner(l: &[u8], plan: Plan, mut turn: Turn) -> Turn
    requires { (function_item_size * plan.functions ≤ length l.now) × Turning plan.old plan.functions turn.next turn.left × (0 < length (ahead l.now plan.old plan.functions turn.next turn.left)) }
    ensures { (ahead l.now plan.old plan.functions result.next result.left ≡ ahead l.now plan.old plan.functions turn.next turn.left) × (0 < result.left) × (0 < result.next) × (plan.old ≡ false → result.next ≤ plan.functions) }
{
    // Kept: a `for` over the functions is no plainer: it takes an `if` in front of it, and an `unreachable!()` behind it.
    while turn.left == 0 {
        turn.left = wire::u64_at(
            l,
            numbers::FUNCTION_ITEM_SIZE * turn.next + numbers::LISTED_RECORD_COUNT_AT,
        );
        turn.next += 1;
    }
    turn
}

// The turn before the first record: the first function is next, or all records are nobody's.
fn start(plan: Plan) -> Turn
    ensures { Starting plan.old plan.functions plan.records result.next result.left }
{
    if plan.old {
        return Turn {
            next: 1,
            left: plan.records as u64,
        };
    }
    Turn { next: 0, left: 0 }
}

// The records from the item at `from` on; the first is to stand at `place`.
fn records(l: &[u8], plan: Plan, from: usize, place: usize) -> Result<usize, Refusal>
    requires { Walkable l.now plan.old plan.functions from plan.records place (place + plan.bytes) × (length l.now ≤ listing_most) }
    ensures { verdict result ≡ entries_fault plan.old plan.constants (entries_from plan.old 0 place (record_owners plan.old plan.records (functions_of l.now plan.functions)) (records_from l.now from)) (place + plan.bytes) }
{
    let mut turn = start(plan);
    let mut at = from;
    let mut to = place;
    for _ in 0..plan.records {
        turn = owner(l, plan, turn);
        let shape = shape::record_shape(l, at);
        to = parser_fault::entry(l, plan, at, shape, turn.next - 1, to)?;
        at = shape.stop;
        turn.left -= 1;
    }
    Ok(to)
}

// The refusal of the section that is to be built, or its length.
pub fn section(l: &[u8], plan: Plan) -> Result<usize, Refusal>
    requires { Planned l.now plan.old plan.functions plan.constants plan.records plan.bytes × (length l.now ≤ listing_most) }
    ensures { verdict result ≡ section_fault (read_items l.now plan.old) }
{
    let functions = plan.functions;
    let constants = plan.constants;
    let place = layout::HEADER_SIZE
        + layout::function_size(plan.old) * functions
        + layout::CONSTANT_SIZE * constants;
    let end = place + plan.bytes;
    if end > layout::SECTION_MOST {
        return Err(Refusal(Cause::WrongLength, 0));
    }
    if !counts_right(l, plan) {
        return Err(Refusal(Cause::WrongCounts, layout::NUM_RECORDS_AT));
    }
    let from = numbers::FUNCTION_ITEM_SIZE * functions + numbers::CONSTANT_ITEM_SIZE * constants;
    records(l, plan, from, place)
}
