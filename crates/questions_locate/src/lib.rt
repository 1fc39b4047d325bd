// The question by record number: where the record stands, or its bytes.
#![tactic(auto)]

ghost use Rattle.std.specs.Prelude.{◌≡◌, ℕ, ◌+◌, ◌≤◌, length, drop};
ghost use Rattle.std.proofs.Math.ListN.{get_elem?};
ghost use Rattle.stackmap.specs.Section.{records_at, is_old, record_length, entries};
ghost use Rattle.stackmap.specs.Check.{walk_check};
ghost use Rattle.stackmap.specs.Walk.{entry_at, Walkable};
ghost use Rattle.questions.specs.Kept.{picked};
ghost use Rattle.questions.specs.Questions.{ask, among, not_located, located, record_place, record_part};

use questions::{Located, Stretch};
use refusals::Refusal;
use stackmap::{Turn, layout};
use stackmap_check::walk;
use stackmap_tables::tables;

// A refusal, with zeros in all other fields.
fn refused(number: u8, place: usize) -> Located
    ensures { result ≡ not_located number place }
{
    Located {
        number,
        place,
        first: 0,
        size: 0,
    }
}

// Keeps where the record `index` stands, from `at` to `end`, if it is the wanted one.
fn keep(s: &[u8], wanted: u64, index: u64, at: usize, end: usize, kept: Stretch) -> Stretch
    requires { (end ≡ at + record_length (is_old s.now) (drop at s.now)) × (kept.first + kept.size ≤ at) }
    ensures { ((i : ℕ) → result ≡ picked (is_old s.now) wanted (entry_at s.now index i at) kept) × (result.first + result.size ≤ end) }
{
    if index == wanted {
        return Stretch {
            first: at,
            size: end - at,
        };
    }
    kept
}

// The walk from the first record's byte: all records, with where the wanted one stands; then 9, then 10.
fn search(s: &[u8], at: usize, wanted: u64) -> Located
    requires { Walkable s.now × (at ≡ records_at s.now) × (at ≤ length s.now) }
    ensures { (result ≡ ask not_located (among (not_located 10 0) (located (is_old s.now)) (get_elem? (entries s.now) wanted)) (walk_check s.now)) × (result.first + result.size ≤ length s.now) }
{
    let constants = wire::u32_at(s, layout::NUM_CONSTANTS_AT);
    let count = wire::u32_at(s, layout::NUM_RECORDS_AT);
    let old = tables::is_old(s);
    let mut turn = walk::start(s, old);
    let mut p = at;
    let mut kept = Stretch { first: 0, size: 0 };
    for index in 0..count {
        let t = walk::owner(s, turn);
        let next = t.next;
        match walk::record_at(s, old, constants, next - 1, p) {
            Err(Refusal(cause, place)) => return refused(cause.number(), place),
            Ok(end) => {
                kept = keep(s, wanted, index as u64, p, end, kept);
                p = end;
            }
        }
        turn = Turn {
            next,
            left: t.left - 1,
        };
    }
    if p != s.len() {
        return refused(9, p);
    }
    if kept.size == 0 {
        return refused(10, 0);
    }
    Located {
        number: 0,
        place: 0,
        first: kept.first,
        size: kept.size,
    }
}

// Where the record of that number stands, or 10 if there is none.
pub fn locate(s: &[u8], wanted: u64) -> Located
    ensures { (result ≡ record_place s.now wanted) × (result.first + result.size ≤ length s.now) }
{
    match tables::begin(s) {
        Err(Refusal(cause, place)) => refused(cause.number(), place),
        Ok(at) => search(s, at, wanted),
    }
}

// The record's bytes themselves, a part of the lent section from the record's first byte; the empty part on any refusal.
pub fn record(s: &[u8], wanted: u64) -> &[u8]
    ensures { (result.now ≡ record_part s.now wanted) × (result.ref_ptr.0 ≡ s.entry.ref_ptr.0) × (result.ref_ptr.1 ≡ s.entry.ref_ptr.1 + (record_place s.now wanted).first) }
{
    let l = locate(s, wanted);
    let first = l.first;
    let end = first + l.size;
    &s[first..end]
}
