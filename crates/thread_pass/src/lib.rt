// Passes over records whose addresses lie strictly between two numbers. A search for many addresses has none there, so that most records of a
// section are passed over in one loop, which keeps what it needs in registers.
// No entry point: it requires a place where a walk stands.
#![tactic(auto)]

ghost use Rattle.std.specs.Prelude.{◌≡◌, true, false, ◌+◌, ◌≤◌, ◌<◌, length, drop};
ghost use Rattle.wire.specs.Word.{word};
ghost use Rattle.stackmap.specs.Verdict.{Valid, Refused, verdict, shift};
ghost use Rattle.stackmap.specs.Section.{num_functions, is_old, constants_at, records_at};
ghost use Rattle.stackmap.specs.Record.{record_check};
ghost use Rattle.stackmap.specs.Walk.{owner_at};
ghost use Rattle.stackmap.proofs.Turns.{Walking};
ghost use Rattle.stackmap_check.specs.Pass.{Stopped, RightAt};
ghost use Rattle.thread_pass.specs.Inside.{Inside};

use refusals::{Cause, Refusal};
use stackmap::{Turn, layout};
use stackmap_check::walk;
use stackmap_quick::quick;

// Where a walk stops: whose turn it is, how many records are ahead, where the next one begins, and where it ends; 0 where that is not known.
#[derive(Clone, Copy)]
pub struct Stop {
    pub next: usize,
    pub left: u64,
    pub remaining: u32,
    pub at: usize,
    pub end: usize,
}

// The end of the record at `at`, of a function at `start`, if quick looks find it right; else 0.
fn quick_end(s: &[u8], old: bool, constants: u32, start: u64, at: usize) -> usize
    requires { at ≤ length s.now }
    ensures { 0 < result → shift at (record_check old (drop at s.now) constants start) ≡ Valid result }
{
    let end = quick::plain(s, old, start, at);
    if end > 1 {
        return end;
    }
    quick::other(s, old, constants, start, at, end == 1)
}

// Whether the record at `at`, of a function at `start`, has an address strictly between the two numbers.
fn is_inside(s: &[u8], start: u64, at: usize, below: u64, above: u64) -> bool
    requires { at + 16 ≤ length s.now }
    ensures { result ≡ true → Inside below above (start + word 4 s.now (at + 8)) }
{
    let offset = wire::u32_at(s, at + layout::INSTRUCTION_OFFSET_AT) as u64;
    start < above && offset < above - start && below < start + offset
}

// Passes over records from where a walk stands, while quick looks find them right and their addresses lie strictly between the two numbers.
pub fn between(
    s: &[u8],
    old: bool,
    constants: u32,
    from: Turn,
    at: usize,
    count: u32,
    below: u64,
    above: u64,
) -> Stop
    requires { (old ≡ is_old s.now) × (constants_at s.now ≤ length s.now) × Walking s.now constants (records_at s.now) from.next from.left count at }
    ensures { Stopped s.now constants (Inside below above) from.next from.left count at result.next result.left result.remaining result.at
        × (0 < result.end → RightAt s.now constants result.next result.at result.end) }
{
    let mut turn = from;
    let mut p = at;
    for passed in 0..count {
        let t = walk::owner(s, turn);
        let next = t.next;
        let left = t.left;
        let start = walk::owner_address(s, old, next - 1);
        let end = quick_end(s, old, constants, start, p);
        if end == 0 {
            return Stop {
                next,
                left,
                remaining: count - passed,
                at: p,
                end,
            };
        }
        if !is_inside(s, start, p, below, above) {
            return Stop {
                next,
                left,
                remaining: count - passed,
                at: p,
                end,
            };
        }
        p = end;
        turn = Turn {
            next,
            left: left - 1,
        };
    }
    let next = turn.next;
    let left = turn.left;
    Stop {
        next,
        left,
        remaining: 0,
        at: p,
        end: 0,
    }
}

// The record at which a walk has stopped, of function number `function`: where its end is known it is right.
pub fn verdict(
    s: &[u8],
    old: bool,
    constants: u32,
    function: usize,
    at: usize,
    end: usize,
) -> Result<usize, Refusal>
    requires { (old ≡ is_old s.now) × (constants_at s.now ≤ length s.now) × (is_old s.now ≡ false → function < num_functions s.now) × (at ≤ length s.now)
        × (0 < end → shift at (record_check (is_old s.now) (drop at s.now) constants (owner_at s.now function).function.address) ≡ Valid end) }
    ensures { verdict result ≡ shift at (record_check (is_old s.now) (drop at s.now) constants (owner_at s.now function).function.address) }
{
    if end > 0 {
        return Ok(end);
    }
    walk::record_at(s, old, constants, function, at)
}

// The verdict of a walk that has passed all records and ended at `at`: 9 if that is not the section's end.
pub fn ended(s: &[u8], at: usize) -> Result<usize, Refusal>
    ensures { (at ≡ length s.now → verdict result ≡ Valid at) × ((at ≡ length s.now → ⊥) → verdict result ≡ Refused 9 at) }
{
    if at != s.len() {
        return Err(Refusal(Cause::BytesAfter, at));
    }
    Ok(at)
}
