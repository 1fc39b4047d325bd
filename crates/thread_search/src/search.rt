// The records of all addresses that are looked for, found in one walk over the section. The addresses are in order; of equal ones the
// first stands for all.
// No entry point: it requires addresses in order, as `addresses::gather` leaves them.
ghost use Rattle.std.specs.Prelude.{◌≡◌, ℕ, ◌+◌, ◌^◌, ◌≤◌, ◌<◌, List, length};
ghost use Rattle.stackmap.specs.Verdict.{Valid, verdict};
ghost use Rattle.stackmap.specs.Section.{records_at, entries};
ghost use Rattle.stackmap.specs.Check.{section_check, Accepted};
ghost use Rattle.stackmap.specs.Walk.{Walkable};
ghost use Rattle.questions.specs.Kept.{no_hits};
ghost use Rattle.questions.specs.Questions.{with_address, first_of};
ghost use Rattle.questions_find.specs.Scan.{all_records, front_check};
ghost use Rattle.sorted.specs.Sorted.{Sorted, EntryOf};
ghost use Rattle.relocate.specs.Plan.{records_of};
ghost use Rattle.thread.specs.Thread.{frames_most};
ghost use Rattle.thread.specs.Code.{Holding, Counted, Sought};
ghost use Rattle.thread_marks.specs.From.{counted_most, Scans};

use questions::Found;
use questions_find::find;
use refusals::Refusal;
use relocate::Frame;
use sorted_numbers::gap::Gap;
use stackmap::{Turn, layout};
use stackmap_check::walk;
use stackmap_tables::tables;
use thread::FRAMES_MOST;

pub const HITS_LENGTH: usize = thread_marks::HITS_LENGTH;

// The walk from the first record's byte: all records, with what the search keeps, and where the last one ends.
fn walk_all(
    s: &[u8],
    at: usize,
    keys: &[u64; FRAMES_MOST],
    count: usize,
    hits: &mut [usize; HITS_LENGTH],
    base: usize,
) -> Result<usize, Refusal>
    requires { Walkable s.now × (at ≡ records_at s.now) × (at ≤ length s.now) × (count ≤ frames_most) × Sorted keys.now count
        × Counted hits.old counted_most × (base + length s.now < 2 ^ 64) }
    ensures { (verdict result ≡ all_records s.now) × Scans keys.now count hits.old hits.new base (entries s.now) (verdict result) }
{
    let constants = wire::u32_at(s, layout::NUM_CONSTANTS_AT);
    let total = wire::u32_at(s, layout::NUM_RECORDS_AT);
    let old = tables::is_old(s);
    let mut remaining = total;
    let mut turn = walk::start(s, old);
    let mut p = at;
    let mut gap = Gap {
        below: 0,
        above: 0,
        place: 0,
    };
    while remaining > 0 {
        let stop = thread_pass::between(
            s, old, constants, turn, p, remaining, gap.below, gap.above,
        );
        let ahead = stop.remaining;
        let here = stop.at;
        if ahead == 0 {
            return Ok(here);
        }
        let next = stop.next;
        let left = stop.left;
        p = thread_pass::verdict(s, old, constants, next - 1, here, stop.end)?;
        let start = walk::owner_address(s, old, next - 1);
        let index = (total - ahead) as usize;
        gap = thread_marks::mark(
            s,
            start,
            index,
            next - 1,
            here,
            keys,
            count,
            hits,
            gap,
            base,
        );
        turn = Turn {
            next,
            left: left - 1,
        };
        remaining = ahead - 1;
    }
    Ok(p)
}

// A section that other bytes may follow, `base` bytes into a longer one: its refusal, or where its last record ends, and what it has of the
// addresses is noted beside what was found before.
pub fn scan_all(
    s: &[u8],
    keys: &[u64; FRAMES_MOST],
    count: usize,
    hits: &mut [usize; HITS_LENGTH],
    base: usize,
) -> Result<usize, Refusal>
    requires { (count ≤ frames_most) × Sorted keys.now count × Counted hits.old counted_most × (base + length s.now < 2 ^ 64) }
    ensures { (verdict result ≡ front_check s.now) × Scans keys.now count hits.old hits.new base (entries s.now) (verdict result) }
{
    let at = tables::begin(s)?;
    walk_all(s, at, keys, count, hits, base)
}

// The check of the section, and what it has of the addresses.
pub fn find_all(
    s: &[u8],
    keys: &[u64; FRAMES_MOST],
    count: usize,
    hits: &mut [usize; HITS_LENGTH],
) -> Result<usize, Refusal>
    requires { (count ≤ frames_most) × Sorted keys.now count × Holding keys.now count hits.old (λ a. no_hits) × Counted hits.old 0 }
    ensures { (verdict result ≡ section_check s.now) × ((e : ℕ) → verdict result ≡ Valid e → Sought s.now keys.now count hits.new) }
{
    let end = scan_all(s, keys, count, hits, 0)?;
    thread_pass::ended(s, end)
}

// The answer to the question by address, for one that was looked for.
pub fn found(
    keys: &[u64; FRAMES_MOST],
    count: usize,
    hits: &[usize; HITS_LENGTH],
    address: u64,
) -> Found
    requires { (count ≤ frames_most) × Sorted keys.now count × EntryOf keys.now count address }
    ensures { (s : List ℕ) → Sought s keys.now count hits.now → result ≡ first_of (with_address address (entries s)) }
{
    let i = sorted::lower_bound(keys, count, address);
    let h = thread_marks::hits_at(hits, i);
    if h.sharing == 0 {
        return Found {
            number: 10,
            place: 0,
            index: 0,
            function: 0,
            sharing: 0,
            first: 0,
        };
    }
    Found {
        number: 0,
        place: 0,
        index: h.index,
        function: h.function,
        sharing: h.sharing,
        first: h.first,
    }
}

// The same for a frame, whose function is named beside it.
pub fn of_frame(
    s: &[u8],
    keys: &[u64; FRAMES_MOST],
    count: usize,
    hits: &[usize; HITS_LENGTH],
    frame: Frame,
) -> Found
    requires { Accepted s.now × (count ≤ frames_most) × Sorted keys.now count × EntryOf keys.now count frame.address × Sought s.now keys.now count hits.now }
    ensures { result ≡ first_of (records_of s.now frame) }
{
    find::named(s, found(keys, count, hits, frame.address), frame.function)
}
