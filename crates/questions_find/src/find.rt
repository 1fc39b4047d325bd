// The questions by address, and by function number and offset.
// `note` is no entry point: it serves the walks, which have checked the record that it reads. Nor is `named`, which serves what has
// searched an accepted section.
ghost use Rattle.std.specs.Prelude.{◌≡◌, ◌+◌, ◌^◌, ◌≤◌, ◌<◌, length};
ghost use Rattle.stackmap.specs.Section.{num_functions, is_old, records_at, entries};
ghost use Rattle.stackmap.specs.Walk.{owner_at, entry_at, Walkable};
ghost use Rattle.stackmap.specs.Layout.{header_size};
ghost use Rattle.stackmap.proofs.OneWalk.{fold};
ghost use Rattle.questions.specs.Kept.{no_hits, noted, searched, named_found, of_section};
ghost use Rattle.questions.specs.Questions.{not_found, by_address, by_function};
ghost use Rattle.questions_find.specs.Scan.{refused_at, told, all_records, scanned, Bounded};

use crate::Scanned;
use questions::{Found, Hits};
use refusals::Refusal;
use stackmap::{Turn, layout};
use stackmap_check::walk;
use stackmap_tables::tables;

// The refusals of these questions, beside the section's own.
const NOT_FOUND: u8 = 10;

const OTHER_VERSION: u8 = 27;

// A refusal, with zeros in all other fields.
fn refused(number: u8, place: usize) -> Found
    ensures { result ≡ not_found number place }
{
    Found {
        number,
        place,
        index: 0,
        function: 0,
        sharing: 0,
        first: 0,
    }
}

// Notes the record `index` at `at`, of function number `function`, which starts at `start`, if it has the address.
pub fn note(
    s: &[u8],
    start: u64,
    address: u64,
    index: usize,
    function: usize,
    at: usize,
    hits: Hits,
) -> Hits
    requires { (start ≡ (owner_at s.now function).function.address) × (at + 16 ≤ length s.now) × (hits.sharing ≤ index) × (index < 2 ^ 32) }
    ensures { (result ≡ noted address (entry_at s.now index function at) hits) × (result.sharing ≤ index + 1) }
{
    let offset = wire::u32_at(s, at + layout::INSTRUCTION_OFFSET_AT) as u64;
    if address < start {
        return hits;
    }
    let gap = address - start;
    if gap != offset {
        return hits;
    }
    if hits.sharing < 1 {
        return Hits {
            index,
            function,
            sharing: 1,
            first: at,
        };
    }
    Hits {
        index: hits.index,
        function: hits.function,
        sharing: hits.sharing + 1,
        first: hits.first,
    }
}

// A refusal of what stands at the front, with nothing kept.
fn stopped(number: u8, place: usize) -> Scanned
    ensures { result ≡ refused_at number place }
{
    Scanned {
        number,
        place,
        hits: Hits {
            index: 0,
            function: 0,
            sharing: 0,
            first: 0,
        },
    }
}

// The walk from the first record's byte: all records, with what the search keeps, and where the last one ends.
fn search(s: &[u8], at: usize, address: u64) -> Scanned
    requires { Walkable s.now × (at ≡ records_at s.now) × (at ≤ length s.now) }
    ensures { (result ≡ told (fold (noted address) (entries s.now) no_hits) (all_records s.now)) × Bounded (length s.now) result.hits }
{
    let constants = wire::u32_at(s, layout::NUM_CONSTANTS_AT);
    let count = wire::u32_at(s, layout::NUM_RECORDS_AT);
    let old = tables::is_old(s);
    let mut remaining = count;
    let mut turn = walk::start(s, old);
    let mut p = at;
    let mut hits = Hits {
        index: 0,
        function: 0,
        sharing: 0,
        first: 0,
    };
    while remaining > 0 {
        let stop = walk::pass(s, old, constants, turn, p, remaining, address);
        let ahead = stop.remaining;
        let here = stop.at;
        if ahead == 0 {
            return Scanned {
                number: 0,
                place: here,
                hits,
            };
        }
        let next = stop.next;
        let left = stop.left;
        match walk::record_at(s, old, constants, next - 1, here) {
            Err(Refusal(cause, place)) => return stopped(cause.number(), place),
            Ok(end) => {
                let start = walk::owner_address(s, old, next - 1);
                let index = (count - ahead) as usize;
                hits = note(s, start, address, index, next - 1, here, hits);
                p = end;
            }
        }
        turn = Turn {
            next,
            left: left - 1,
        };
        remaining = ahead - 1;
    }
    Scanned {
        number: 0,
        place: p,
        hits,
    }
}

// A section that other bytes may follow: its refusal, or where its last record ends, and what has the address, or the offset in version 1.
pub fn scan(s: &[u8], address: u64) -> Scanned
    ensures { (result ≡ scanned s.now address) × Bounded (length s.now) result.hits }
{
    match tables::begin(s) {
        Err(Refusal(cause, place)) => stopped(cause.number(), place),
        Ok(at) => search(s, at, address),
    }
}

// The first record with the address, or at the offset in version 1; 9 if bytes follow the last record; 10 exactly if there is none.
pub fn records(s: &[u8], address: u64) -> Found
    ensures { result ≡ searched s.now address }
{
    let front = scan(s, address);
    if front.number != 0 {
        return refused(front.number, front.place);
    }
    if front.place != s.len() {
        return refused(9, front.place);
    }
    let hits = front.hits;
    if hits.sharing == 0 {
        return refused(NOT_FOUND, 0);
    }
    Found {
        number: 0,
        place: 0,
        index: hits.index,
        function: hits.function,
        sharing: hits.sharing,
        first: hits.first,
    }
}

// Whether an answer is the section's own refusal.
pub fn of_section(found: Found) -> bool
    ensures { result ≡ of_section found }
{
    if found.number == 0 {
        return false;
    }
    if found.number == NOT_FOUND {
        return false;
    }
    true
}

// What was found, where the function with this number is named beside it: version 1 does not say which function owns a record.
pub fn named(s: &[u8], found: Found, function: u64) -> Found
    requires { header_size ≤ length s.now }
    ensures { result ≡ named_found (is_old s.now) (num_functions s.now) function found }
{
    if tables::is_old(s) {
        let functions = wire::u32_at(s, layout::NUM_FUNCTIONS_AT) as u64;
        if function >= functions {
            return refused(NOT_FOUND, 0);
        }
        if found.number != 0 {
            return found;
        }
        return Found {
            number: 0,
            place: 0,
            index: found.index,
            function: function as usize,
            sharing: found.sharing,
            first: found.first,
        };
    }
    found
}

// By address: the first record with the address, or 10 exactly if there is none; 27 on version 1.
pub fn find(s: &[u8], address: u64) -> Found
    ensures { result ≡ by_address s.now address }
{
    let found = records(s, address);
    if of_section(found) {
        return refused(found.number, found.place);
    }
    if tables::is_old(s) {
        return refused(OTHER_VERSION, 0);
    }
    found
}

// By function number and offset, of version 1: the first record at the offset, or 10 exactly if there is no such function or record; 27
// on version 3.
pub fn find_in_function(s: &[u8], function: u64, offset: u64) -> Found
    ensures { result ≡ by_function s.now function offset }
{
    let found = records(s, offset);
    if of_section(found) {
        return refused(found.number, found.place);
    }
    if tables::is_old(s) {
        return named(s, found, function);
    }
    refused(OTHER_VERSION, 0)
}
