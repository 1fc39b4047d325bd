// The walk over the records, each read from its own stretch of the section.
// No entry point: it requires the tables to be inside and their counts to add up, which `tables::begin` has tested.
ghost use Rattle.std.specs.Prelude.{◌≡◌, ◌+◌, ◌<◌, ◌≤◌, false, length, drop, ◌≢◌};
ghost use Rattle.wire.specs.Word.{word};
ghost use Rattle.stackmap.specs.Verdict.{Valid};
ghost use Rattle.stackmap.specs.Verdict.{verdict, shift};
ghost use Rattle.stackmap.specs.Section.{num_functions, num_constants, num_records, is_old, constants_at, records_at, read_functions, record_owners};
ghost use Rattle.stackmap.specs.Record.{record_check};
ghost use Rattle.stackmap.specs.Check.{records_check};
ghost use Rattle.stackmap.specs.Walk.{ahead, owner_at, first_turn, Turning, Walkable};
ghost use Rattle.stackmap.proofs.Turns.{Walking};
ghost use Rattle.stackmap_check.specs.Pass.{Not, Stopped};

use refusals::Refusal;
use stackmap::{Turn, layout};
use stackmap_quick::quick;
use stackmap_record::record;
use stackmap_tables::tables;

// Passes over functions that have no record left, to the owner of the next record.
pub fn owner(s: &[u8], turn: Turn) -> Turn
    requires { (constants_at s.now ≤ length s.now) × Turning s.now turn.next turn.left × (0 < length (ahead s.now turn.next turn.left)) }
    ensures { (ahead s.now result.next result.left ≡ ahead s.now turn.next turn.left) × (0 < result.left) × (0 < result.next) × (is_old s.now ≡ false → result.next ≤ num_functions s.now) }
{
    let mut next = turn.next;
    let mut left = turn.left;
    while left == 0 {
        left = wire::u64_at(
            s,
            layout::HEADER_SIZE + layout::FUNCTION_SIZE * next + layout::RECORD_COUNT_AT,
        );
        next += 1;
    }
    Turn { next, left }
}

// What a record's offset counts from: the address of its function, or 0 where it is nobody's.
pub fn owner_address(s: &[u8], old: bool, function: usize) -> u64
    requires { (old ≡ is_old s.now) × (constants_at s.now ≤ length s.now) × (is_old s.now ≡ false → function < num_functions s.now) }
    ensures { result ≡ (owner_at s.now function).function.address }
{
    if old {
        return 0;
    }
    wire::u64_at(s, layout::HEADER_SIZE + layout::FUNCTION_SIZE * function)
}

// The record at `at`, of a function at `address`, checked so that what is wrong is named.
fn exact_at(s: &[u8], old: bool, constants: u32, address: u64, at: usize) -> Result<usize, Refusal>
    requires { at ≤ length s.now }
    ensures { verdict result ≡ shift at (record_check old (drop at s.now) constants address) }
{
    match record::check_record(&s[at..], old, constants, address) {
        Err(Refusal(cause, place)) => Err(Refusal(cause, at + place)),
        Ok(size) => Ok(at + size),
    }
}

// The record at `at`, of function number `function`, or of nobody: by quick looks, and where they say nothing exactly.
// The check of a section has an instance of its own, since with two callers `plain`, `other` and `exact_at` stay functions of their own,
// and what is around them is compiled into each walk. Compiled into one function they would share its registers.
fn one_record<const IN_CHECK: bool>(
    s: &[u8],
    old: bool,
    constants: u32,
    function: usize,
    at: usize,
) -> Result<usize, Refusal>
    requires { (old ≡ is_old s.now) × (constants_at s.now ≤ length s.now) × (is_old s.now ≡ false → function < num_functions s.now) × (at ≤ length s.now) }
    ensures { verdict result ≡ shift at (record_check (is_old s.now) (drop at s.now) constants (owner_at s.now function).function.address) }
{
    let address = owner_address(s, old, function);
    let end = quick::plain(s, old, address, at);
    if end > 1 {
        return Ok(end);
    }
    let next = quick::other(s, old, constants, address, at, end == 1);
    if next > 0 {
        return Ok(next);
    }
    exact_at(s, old, constants, address, at)
}

// The record at `at`, for walks that keep something of each record.
pub fn record_at(
    s: &[u8],
    old: bool,
    constants: u32,
    function: usize,
    at: usize,
) -> Result<usize, Refusal>
    requires { (old ≡ is_old s.now) × (constants_at s.now ≤ length s.now) × (is_old s.now ≡ false → function < num_functions s.now) × (at ≤ length s.now) }
    ensures { verdict result ≡ shift at (record_check (is_old s.now) (drop at s.now) constants (owner_at s.now function).function.address) }
{
    one_record::<false>(s, old, constants, function, at)
}

// Where a walk stops: whose turn it is, how many records are ahead, and where the next one begins.
#[derive(Clone, Copy)]
pub struct Stop {
    pub next: usize,
    pub left: u64,
    pub remaining: u32,
    pub at: usize,
}

// The end of the record at `at`, of a function at `start`; 0 if it has the address `wanted`.
fn unless(s: &[u8], start: u64, at: usize, wanted: u64, end: usize) -> usize
    requires { at + 16 ≤ length s.now }
    ensures { 0 < result → (result ≡ end) × (start + word 4 s.now (at + 8) ≢ wanted) }
{
    let offset = wire::u32_at(s, at + layout::INSTRUCTION_OFFSET_AT) as u64;
    let gap = std::num::wrapping_sub_u64(wanted, start);
    if gap == offset {
        return 0;
    }
    end
}

// Where the record at `at`, of a function at `start`, ends, if quick looks find it right and it does not have the address; else 0.
fn past(s: &[u8], old: bool, constants: u32, start: u64, at: usize, wanted: u64) -> usize
    requires { at ≤ length s.now }
    ensures { 0 < result → (shift at (record_check old (drop at s.now) constants start) ≡ Valid result) × (start + word 4 s.now (at + 8) ≢ wanted) }
{
    let end = quick::plain(s, old, start, at);
    if end > 1 {
        return unless(s, start, at, wanted, end);
    }
    let next = quick::other(s, old, constants, start, at, end == 1);
    if next > 0 {
        return unless(s, start, at, wanted, next);
    }
    0
}

// Passes over records from where a walk stands, while quick looks find them right and they do not have the address. One loop for all of
// them keeps what it needs in registers; what is kept of a record that has the address is its caller's.
pub fn pass(
    s: &[u8],
    old: bool,
    constants: u32,
    from: Turn,
    at: usize,
    count: u32,
    wanted: u64,
) -> Stop
    requires { (old ≡ is_old s.now) × (constants_at s.now ≤ length s.now) × Walking s.now constants (records_at s.now) from.next from.left count at }
    ensures { Stopped s.now constants (Not wanted) from.next from.left count at result.next result.left result.remaining result.at }
{
    let mut turn = from;
    let mut p = at;
    for passed in 0..count {
        let t = owner(s, turn);
        let next = t.next;
        let left = t.left;
        let start = owner_address(s, old, next - 1);
        let end = past(s, old, constants, start, p, wanted);
        if end == 0 {
            return Stop {
                next,
                left,
                remaining: count - passed,
                at: p,
            };
        }
        p = end;
        turn = Turn {
            next,
            left: left - 1,
        };
    }
    let next = turn.next;
    let left = turn.left;
    Stop {
        next,
        left,
        remaining: 0,
        at: p,
    }
}

// The turn before the first record: the first function is next, or all records are nobody's.
pub fn start(s: &[u8], old: bool) -> Turn
    requires { (old ≡ is_old s.now) × Walkable s.now }
    ensures { result ≡ first_turn (is_old s.now) s.now }
{
    if old {
        let records = wire::u32_at(s, layout::NUM_RECORDS_AT) as u64;
        return Turn {
            next: 1,
            left: records,
        };
    }
    Turn { next: 0, left: 0 }
}

// All records; the first stands at `at`.
pub fn all_records(s: &[u8], at: usize) -> Result<usize, Refusal>
    requires { Walkable s.now × (at ≤ length s.now) }
    ensures { verdict result ≡ records_check (is_old s.now) (record_owners (is_old s.now) (num_records s.now) (read_functions s.now)) s.now (num_constants s.now) at }
{
    let constants = wire::u32_at(s, layout::NUM_CONSTANTS_AT);
    let count = wire::u32_at(s, layout::NUM_RECORDS_AT);
    let old = tables::is_old(s);
    let mut turn = start(s, old);
    let mut p = at;
    for passed in 0..count {
        let t = owner(s, turn);
        let next = t.next;
        p = one_record::<true>(s, old, constants, next - 1, p)?;
        turn = Turn {
            next,
            left: t.left - 1,
        };
    }
    Ok(p)
}
