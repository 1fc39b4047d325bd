// The records of many addresses over all maps of a linked section, found in one walk over its bytes. The addresses are in order; of equal
// ones the first stands for all.
// No entry point: it requires addresses in order, as `addresses::gather` leaves them.
#![tactic(auto)]

ghost use Rattle.std.specs.Prelude.{◌≡◌, true, cond, List, ℕ, ◌+◌, ◌*◌, ◌≤◌, ◌<◌, eqb, length, drop, get_or, set};
ghost use Rattle.stackmap.specs.Verdict.{Valid, verdict, shift};
ghost use Rattle.stackmap.specs.Section.{is_old, entries};
ghost use Rattle.questions.specs.Kept.{no_hits};
ghost use Rattle.questions_find.specs.Scan.{front_check};
ghost use Rattle.sorted.specs.Sorted.{Sorted};
ghost use Rattle.thread.specs.Thread.{frames_most};
ghost use Rattle.thread.specs.Code.{Holding, Counted};
ghost use Rattle.thread_marks.specs.From.{counted_most, Grown, Scans};
ghost use Rattle.linked.specs.Linked as LinkedMaps;
ghost use Rattle.linked_moves.specs.Code.{maps_in, SoughtIn, AllStanding};
ghost use Rattle.linked_search.specs.Check.{linked_check};
ghost use Rattle.linked_search.specs.Found.{mark, Finding, SettlesOne, SiteStored, Put};

use linked_moves::{SITE_NUMBERS, SITES_LENGTH};
use refusals::{Cause, Refusal};
use stackmap_tables::tables;
use thread::FRAMES_MOST;
use thread_search::search;
use thread_search::search::HITS_LENGTH;

const SIZE_LEAST: usize = 16;

const SIZE_MOST: usize = 16777216;

const HIT_NUMBERS: usize = 4;

// A record's place in the whole has this mark on it until its map's end is known.
const MARK: usize = 4294967296;

// Writes the two numbers of the map in which the address at the place i was found.
fn put_site(sites: &mut [usize], i: usize, first: usize, size: usize)
    requires { 2 * i + 1 < length sites.old }
    ensures { SiteStored sites.old sites.new i first size }
{
    let p = SITE_NUMBERS * i;
    sites[p] = first;
    sites[p + 1] = size;
}

// Writes the place of the record that was found first.
fn put_first(hits: &mut [usize], i: usize, first: usize)
    requires { 4 * i + 3 < length hits.old }
    ensures { Put hits.old hits.new (4 * i + 3) first }
{
    hits[HIT_NUMBERS * i + 3] = first;
}

// Settles the place i: if its record is pending, its map is one of the n in the table.
fn settle_one(
    i: usize,
    hits: &mut [usize; HITS_LENGTH],
    sites: &mut [usize; SITES_LENGTH],
    table: &[u64; FRAMES_MOST],
    n: usize,
)
    requires { (i < frames_most) × (n < frames_most) × Sorted table.now (n + 1) }
    ensures { SettlesOne table.now n i hits.old sites.old hits.new sites.new }
{
    let h = thread_marks::hits_at(hits, i);
    if h.first >= MARK {
        let place = (h.first - MARK) as u64;
        let j = sorted::lower_bound(table, n, place + 1);
        if j > 0 {
            let from = table[j - 1];
            put_site(sites, i, from as usize, (table[j] - from) as usize);
            put_first(hits, i, (place - from) as usize);
        }
    }
}

// Settles all places.
fn settle(
    count: usize,
    hits: &mut [usize; HITS_LENGTH],
    sites: &mut [usize; SITES_LENGTH],
    table: &[u64; FRAMES_MOST],
    n: usize,
)
    requires { (count ≤ frames_most) × (n < frames_most) × Sorted table.now (n + 1) }
    ensures { ((keys : List ℕ) (done : List LinkedMaps.Map) → Finding keys count table.now n sites.old hits.old done
        → Finding keys count table.now 0 sites.new hits.new done) × Grown hits.old hits.new 0 }
{
    for i in 0..count {
        settle_one(i, hits, sites, table, n);
    }
}

// Writes the end of a map.
fn put_end(table: &mut [u64], i: usize, end: usize)
    requires { i < length table.old }
    ensures { Put table.old table.new i end }
{
    table[i] = end as u64;
}

// One more map ends at `end`: the table has it beside the n before. Where the table is full, and after the last map, all places are settled
// and the table begins anew. The answer is how many maps the table has.
fn close_map(
    count: usize,
    hits: &mut [usize; HITS_LENGTH],
    sites: &mut [usize; SITES_LENGTH],
    table: &mut [u64; FRAMES_MOST],
    n: usize,
    end: usize,
    last: bool,
) -> usize
    requires { (count ≤ frames_most) × (n + 1 < frames_most) × Sorted table.old (n + 1) × (get_or table.old n 0 ≤ end) }
    ensures { ((keys : List ℕ) (done : List LinkedMaps.Map) → Finding keys count (set table.old (n + 1) end) (n + 1) sites.old hits.old done
        → Finding keys count table.new result sites.new hits.new done) × Grown hits.old hits.new 0
        × (result + 1 < frames_most) × Sorted table.new (result + 1) × (get_or table.new result 0 ≡ end) × (last ≡ true → result ≡ 0) × (n + 1 < length table.old) }
{
    put_end(table, n + 1, end);
    if n + 2 < FRAMES_MOST && !last {
        return n + 1;
    }
    settle(count, hits, sites, table, n + 1);
    put_end(table, 0, end);
    0
}

// The map at `at`: its refusal, or its end, with places in the whole; what it has of the addresses is noted, with the mark.
fn scan_at(
    s: &[u8],
    keys: &[u64; FRAMES_MOST],
    count: usize,
    hits: &mut [usize; HITS_LENGTH],
    at: usize,
) -> Result<usize, Refusal>
    requires { (count ≤ frames_most) × Sorted keys.now count × Counted hits.old counted_most × (at ≤ length s.now) × (length s.now ≤ 16777216) }
    ensures { (verdict result ≡ shift at (front_check (drop at s.now))) × Scans keys.now count hits.old hits.new (mark + at) (entries (drop at s.now)) (verdict result) }
{
    match search::scan_all(&s[at..], keys, count, hits, MARK + at) {
        Err(Refusal(cause, place)) => Err(Refusal(cause, at + place)),
        Ok(end) => Ok(at + end),
    }
}

// The first byte of the first map of version 1: `old` if there is one before the map at `at`, or the section's length if there is none.
fn first_old(s: &[u8], at: usize, old: usize) -> usize
    requires { at + 16 ≤ length s.now }
    ensures { result ≡ cond (eqb old (length s.now)) (cond (is_old (drop at s.now)) at (length s.now)) old }
{
    if old != s.len() {
        return old;
    }
    if tables::is_old(&s[at..]) {
        return at;
    }
    old
}

// The refusal of the section's maps, at its place in the whole; or 27, at its first byte, where one is of version 1; or all is right, and the
// records of all addresses are found, each with its map.
pub fn find_all(
    section: &[u8],
    keys: &[u64; FRAMES_MOST],
    count: usize,
    hits: &mut [usize; HITS_LENGTH],
    sites: &mut [usize; SITES_LENGTH],
) -> Result<usize, Refusal>
    requires { (count ≤ frames_most) × Sorted keys.now count × Holding keys.now count hits.old (λ a. no_hits) × Counted hits.old 0 }
    ensures { (verdict result ≡ linked_check section.now) × ((e : ℕ) → verdict result ≡ Valid e
        → SoughtIn (maps_in section.now) keys.now count hits.new sites.new × AllStanding section.now (maps_in section.now)) }
{
    let size = section.len();
    if size < SIZE_LEAST || size > SIZE_MOST {
        return Err(Refusal(Cause::WrongLength, 0));
    }
    let mut table = [0u64; FRAMES_MOST];
    let mut n: usize = 0;
    let mut at: usize = 0;
    let mut old = size;
    while at < size {
        let end = scan_at(section, keys, count, hits, at)?;
        old = first_old(section, at, old);
        n = close_map(count, hits, sites, &mut table, n, end, end == size);
        at = end;
    }
    if old != size {
        return Err(Refusal(Cause::OtherVersion, old));
    }
    Ok(size)
}
