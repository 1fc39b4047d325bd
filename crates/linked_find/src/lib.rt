// The question by address over all maps of a linked section, in one walk.
#![tactic(auto)]

ghost use Rattle.std.specs.Prelude.{◌≡◌, ◌+◌, ◌^◌, ◌≤◌, ◌<◌};
ghost use Rattle.linked.specs.Find.{not_found_in, by_address_in};
ghost use Rattle.linked_find.specs.Added.{added};

use linked::FoundIn;
use questions::Hits;
use stackmap_tables::tables;

// The refusals of this question, beside the maps' own.
const NOT_FOUND: u8 = 10;

const OTHER_VERSION: u8 = 27;

// A refusal, with zeros in all other fields.
fn refused(number: u8, place: usize) -> FoundIn
    ensures { result ≡ not_found_in number place }
{
    FoundIn {
        number,
        place,
        map: 0,
        index: 0,
        function: 0,
        sharing: 0,
        first: 0,
    }
}

// The answer over one map more, which has this number and version and stands at `at`, with what was found in it.
// No entry point: it requires sums that fit.
fn add(found: FoundIn, old: bool, number: usize, at: usize, hits: Hits) -> FoundIn
    requires { (at + hits.first < 2 ^ 64) × (found.sharing + hits.sharing < 2 ^ 64) }
    ensures { (result ≡ added old number at hits found) × (result.sharing ≤ found.sharing + hits.sharing) }
{
    if found.number == OTHER_VERSION {
        return found;
    }
    if old {
        return refused(OTHER_VERSION, at);
    }
    let here = hits.sharing;
    if here == 0 {
        return found;
    }
    let before = found.sharing;
    if before == 0 {
        return FoundIn {
            number: 0,
            place: 0,
            map: number,
            index: hits.index,
            function: hits.function,
            sharing: here,
            first: at + hits.first,
        };
    }
    FoundIn {
        number: 0,
        place: 0,
        map: found.map,
        index: found.index,
        function: found.function,
        sharing: before + here,
        first: found.first,
    }
}

// The first record with the address over all maps, with its map and how many records share the address; or the refusal of a map, at its
// place in the whole; or 27 at the first byte of a map of version 1; or 10 exactly if there is none. 27 and 10 are given when all maps are
// checked: each map is walked over once, and the walk that checks it finds the records.
pub fn find(section: &[u8], address: u64) -> FoundIn
    ensures { result ≡ by_address_in section.now address }
{
    let mut at: usize = 0;
    let mut number: usize = 0;
    let mut found = refused(NOT_FOUND, 0);
    loop {
        let front = questions_find::find::scan(&section[at..], address);
        if front.number != 0 {
            return refused(front.number, at + front.place);
        }
        let old = tables::is_old(&section[at..]);
        let hits = front.hits;
        let next = add(found, old, number, at, hits);
        let end = at + front.place;
        if end == section.len() {
            return next;
        }
        found = next;
        at = end;
        number += 1;
    }
}
