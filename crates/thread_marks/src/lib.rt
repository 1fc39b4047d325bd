// What a search for many addresses keeps of each: the addresses are in order, and of equal ones the first stands for all.
// No entry point: it requires addresses in order and a record that was checked.
#![tactic(auto)]

ghost use Rattle.std.specs.Prelude.{◌≡◌, ℕ, ◌+◌, ◌*◌, ◌^◌, ◌≤◌, ◌<◌, length};
ghost use Rattle.stackmap.specs.Section.{Entry, address};
ghost use Rattle.stackmap.specs.Walk.{owner_at, entry_at};
ghost use Rattle.questions.specs.declared.Hits as HitsType;
ghost use Rattle.sorted.specs.Sorted.{Sorted, LowerBound};
ghost use Rattle.sorted_numbers.specs.Numbers.{Between};
ghost use Rattle.thread.specs.Thread.{frames_most};
ghost use Rattle.thread.specs.Code.{hits_at, Stored, Holding, Counted, noted_all};
ghost use Rattle.thread_marks.specs.From.{sharing_most, hit_by, noted_from, Grown};

use questions::Hits;
use sorted_numbers::gap;
use sorted_numbers::gap::Gap;
use stackmap::layout;
use thread::FRAMES_MOST;

// The numbers of an address: index, function, sharing and first.
const HIT_NUMBERS: usize = 4;

pub const HITS_LENGTH: usize = HIT_NUMBERS * FRAMES_MOST;

// What has been found of the address at the place i.
pub fn hits_at(hits: &[usize; HITS_LENGTH], i: usize) -> Hits
    requires { i < frames_most }
    ensures { result ≡ hits_at hits.now i }
{
    let p = HIT_NUMBERS * i;
    Hits {
        index: hits[p],
        function: hits[p + 1],
        sharing: hits[p + 2],
        first: hits[p + 3],
    }
}

fn store(hits: &mut [usize], i: usize, h: Hits)
    requires { 4 * i + 3 < length hits.old }
    ensures { Stored hits.old hits.new i h }
{
    let p = HIT_NUMBERS * i;
    hits[p..p + HIT_NUMBERS].copy_from_slice(&[h.index, h.function, h.sharing, h.first]);
}

// What has been found with one more record: the first one is kept, and how many there were.
fn hit(h: Hits, index: usize, function: usize, first: usize) -> Hits
    requires { h.sharing ≤ sharing_most }
    ensures { (result ≡ hit_by index function first h) × (result.sharing ≤ h.sharing + 1) }
{
    if h.sharing == 0 {
        return Hits {
            index,
            function,
            sharing: 1,
            first,
        };
    }
    Hits {
        sharing: h.sharing + 1,
        ..h
    }
}

// Notes a record of these numbers, if its address `key` is the one at the place i, its lower bound.
fn note_at(
    key: u64,
    index: usize,
    function: usize,
    first: usize,
    keys: &[u64; FRAMES_MOST],
    count: usize,
    hits: &mut [usize; HITS_LENGTH],
    i: usize,
)
    requires { (count ≤ frames_most) × Counted hits.old sharing_most × LowerBound keys.now count key i }
    ensures { ((e : Entry) → e.number ≡ index → e.owner.number ≡ function → e.first ≡ first → address e ≡ key
        → (h : ℕ → HitsType.Hits) → Holding keys.now count hits.old h → Holding keys.now count hits.new (noted_all e h))
        × Grown hits.old hits.new 1 }
{
    if i < count && keys[i] == key {
        let before = hits_at(hits, i);
        let after = hit(before, index, function, first);
        store(hits, i, after);
    }
}

// Notes the record `index` at `at`, of function number `function`, which starts at `start`, if its address is looked for; its first byte is
// counted from `base` bytes before the section. No address that is looked for lies strictly inside the gap, so a record there is passed
// over; the answer is the gap around this record's address.
pub fn mark(
    s: &[u8],
    start: u64,
    index: usize,
    function: usize,
    at: usize,
    keys: &[u64; FRAMES_MOST],
    count: usize,
    hits: &mut [usize; HITS_LENGTH],
    gap: Gap,
    base: usize,
) -> Gap
    requires { (start ≡ (owner_at s.now function).function.address) × (at + 16 ≤ length s.now) × (base + length s.now < 2 ^ 64)
        × (address (entry_at s.now index function at) < 2 ^ 64) × (count ≤ frames_most) × Sorted keys.now count × Counted hits.old sharing_most
        × Between keys.now count gap.below gap.above gap.place }
    ensures { ((h : ℕ → HitsType.Hits) → Holding keys.now count hits.old h
        → Holding keys.now count hits.new (noted_from base (entry_at s.now index function at) h))
        × Grown hits.old hits.new 1 × Between keys.now count result.below result.above result.place }
{
    let offset = wire::u32_at(s, at + layout::INSTRUCTION_OFFSET_AT);
    let key = start + u64::from(offset);
    if gap.below < key && key < gap.above {
        return gap;
    }
    let i = gap::place(keys, count, gap, key);
    note_at(key, index, function, base + at, keys, count, hits, i);
    gap::around(keys, count, key, i)
}
