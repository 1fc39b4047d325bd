// Many lookups in one call, which is what an index pays for: the section, its index and the length of the lent list are tested once, and
// then each address is looked up by halving.
#![tactic(auto)]

ghost use Rattle.std.specs.Prelude.{◌≡◌, false};
ghost use Rattle.stackmap.specs.Section.{is_old, entries};
ghost use Rattle.stackmap.specs.Check.{Accepted};
ghost use Rattle.index.specs.Answers.{Answers};
ghost use Rattle.index.specs.Index.{index_of, put_numbers, answers_of, all_by_index};

use index::Written;
use questions_find::find;
use stackmap::layout;
use stackmap_tables::tables;

const LIST_SHORT: u8 = 24;

const OTHER_VERSION: u8 = 27;

const OTHER_INDEX: u8 = 29;

// A refusal, which leaves the list as it was.
fn refused(number: u8, place: usize) -> Written
    ensures { (result.number ≡ number) × (result.place ≡ place) × (result.written ≡ 0) }
{
    Written {
        number,
        place,
        written: 0,
    }
}

// 24 if the list of answers is too short, else all answers.
fn answered(s: &[u8], index: &[u64], addresses: &[u64], answers: &mut [u64]) -> Written
    requires { Accepted s.now × (is_old s.now ≡ false) × (index.now ≡ index_of s.now) }
    ensures { Answers result answers.new
        (put_numbers (answers_of (entries s.now) addresses.now) answers.old) }
{
    if answers.len() / 5 < addresses.len() {
        return refused(LIST_SHORT, 0);
    }
    let n = wire::u32_at(s, layout::NUM_RECORDS_AT) as usize;
    index_answers::answer_all(s, index, n, addresses, answers);
    Written {
        number: 0,
        place: 0,
        written: 5 * addresses.len(),
    }
}

// For each address five numbers: what the lookup through the index answers. 27 on version 1; 29 unless the list is the section's index; 24
// if the list of answers is too short.
pub fn find_all_by_index(s: &[u8], index: &[u64], addresses: &[u64], answers: &mut [u64]) -> Written
    ensures { Answers result answers.new
        (all_by_index s.now index.now addresses.now answers.old) }
{
    let checked = index_check::check(s, index, 0);
    let found = checked.found;
    if find::of_section(found) {
        return refused(found.number, found.place);
    }
    if tables::is_old(s) {
        return refused(OTHER_VERSION, 0);
    }
    if checked.right {
        return answered(s, index, addresses, answers);
    }
    refused(OTHER_INDEX, 0)
}
