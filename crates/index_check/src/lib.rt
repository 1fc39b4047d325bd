// Whether a list that is handed in is the section's index, which is the test of 29. It is told in the walk of the section's check, without a
// second list: the right length, strictly rising, and each record's pair is in it.
#![tactic(auto)]

ghost use Rattle.std.specs.Prelude.{◌≡◌, false, ◌≤◌, length, eqb, leb};
ghost use Rattle.stackmap.specs.Section.{num_records, is_old, records_at, entries};
ghost use Rattle.stackmap.specs.Verdict.{Valid};
ghost use Rattle.stackmap.specs.Check.{Accepted, walk_check};
ghost use Rattle.stackmap.specs.Walk.{Walkable};
ghost use Rattle.stackmap.specs.Layout.{header_size};
ghost use Rattle.questions.specs.Kept.{no_hits, searched};
ghost use Rattle.questions.proofs.Kept.{hits_answer};
ghost use Rattle.questions.specs.Questions.{ask, with_address, not_found, first_of};
ghost use Rattle.index.specs.Index.{same, index_of};
ghost use Rattle.index_follow.specs.Seen.{all_seen, Following};

use index_follow::{first_place, next_place};
use questions::{Found, Hits};
use questions_find::find;
use refusals::Refusal;
use stackmap::{Turn, layout};
use stackmap_check::walk;
use stackmap_tables::tables;

// What a search for an address gives, and whether the list is the index.
#[derive(Clone, Copy)]
pub struct Checked {
    pub found: Found,
    pub right: bool,
}

const NOT_FOUND: u8 = 10;

// A refusal, with zeros in all other fields.
fn not_found(number: u8, place: usize) -> Found
    ensures { result ≡ not_found number place }
{
    Found {
        number,
        place,
        index: 0,
        function: 0,
        sharing: 0,
        first: 0,
    }
}

// A refusal of the section, of which no list is the index.
fn refused(number: u8, place: usize) -> Checked
    ensures { result.found ≡ not_found number place }
{
    Checked {
        found: not_found(number, place),
        right: false,
    }
}

// What a search keeps before the first record.
fn no_hits() -> Hits
    ensures { result ≡ no_hits }
{
    Hits {
        index: 0,
        function: 0,
        sharing: 0,
        first: 0,
    }
}

// The answer, by what was kept.
fn ended(hits: Hits, right: bool) -> Checked
    ensures { (result.found ≡ hits_answer (eqb hits.sharing 0) hits) × (result.right ≡ right) }
{
    if hits.sharing == 0 {
        return Checked {
            found: not_found(NOT_FOUND, 0),
            right,
        };
    }
    Checked {
        found: Found {
            number: 0,
            place: 0,
            index: hits.index,
            function: hits.function,
            sharing: hits.sharing,
            first: hits.first,
        },
        right,
    }
}

// The walk from the first record's byte, in which the list is followed from `place` on.
fn walk_both(s: &[u8], list: &[u64], at: usize, address: u64, place: usize) -> Checked
    requires { Walkable s.now × (at ≡ records_at s.now) × (at ≤ length s.now) × Following list.now (num_records s.now) place }
    ensures { (result.found ≡ ask not_found (first_of (with_address address (entries s.now))) (walk_check s.now)) × (walk_check s.now ≡ Valid (length s.now) → result.right ≡ all_seen s.now list.now (leb place (num_records s.now))) }
{
    let constants = wire::u32_at(s, layout::NUM_CONSTANTS_AT);
    let n = wire::u32_at(s, layout::NUM_RECORDS_AT) as usize;
    let old = tables::is_old(s);
    let mut turn = walk::start(s, old);
    let mut p = at;
    let mut hits = no_hits();
    let mut here = place;
    for number in 0..n {
        let t = walk::owner(s, turn);
        let next = t.next;
        match walk::record_at(s, old, constants, next - 1, p) {
            Err(Refusal(cause, q)) => return refused(cause.number(), q),
            Ok(end) => {
                let start = walk::owner_address(s, old, next - 1);
                hits = find::note(s, start, address, number, next - 1, p, hits);
                here = next_place(s, list, n, start, number, next - 1, p, here);
                p = end;
            }
        }
        turn = Turn {
            next,
            left: t.left - 1,
        };
    }
    if p != s.len() {
        return refused(9, p);
    }
    ended(hits, here <= n)
}

// The section's check, what a search for the address gives, and whether the list is the index of the section.
pub fn check(s: &[u8], list: &[u64], address: u64) -> Checked
    ensures { (result.found ≡ searched s.now address) × (Accepted s.now → is_old s.now ≡ false → result.right ≡ same list.now (index_of s.now)) }
{
    match tables::begin(s) {
        Err(Refusal(cause, place)) => refused(cause.number(), place),
        Ok(at) => {
            let n = wire::u32_at(s, layout::NUM_RECORDS_AT) as usize;
            let place = first_place(list, n);
            walk_both(s, list, at, address, place)
        }
    }
}
