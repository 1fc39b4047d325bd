// A lookup by address through an index of the section, which is lent with it: what the walk without an index gives.
#![tactic(auto)]

ghost use Rattle.std.specs.Prelude.{◌≡◌};
ghost use Rattle.questions.specs.Questions.{not_found};
ghost use Rattle.index.specs.Index.{by_index};

use questions::Found;
use questions_find::find;
use stackmap_tables::tables;

const OTHER_VERSION: u8 = 27;

const OTHER_INDEX: u8 = 29;

// A refusal, with zeros in all other fields.
fn refused(number: u8, place: usize) -> Found
    ensures { result ≡ not_found number place }
{
    Found {
        number,
        place,
        index: 0,
        function: 0,
        sharing: 0,
        first: 0,
    }
}

// The first record with the address, or 10 exactly if there is none; 27 on version 1; 29 unless the list is the section's index.
pub fn find_by_index(s: &[u8], index: &[u64], address: u64) -> Found
    ensures { result ≡ by_index s.now index.now address }
{
    let checked = index_check::check(s, index, address);
    let found = checked.found;
    if find::of_section(found) {
        return refused(found.number, found.place);
    }
    if tables::is_old(s) {
        return refused(OTHER_VERSION, 0);
    }
    if checked.right {
        return found;
    }
    refused(OTHER_INDEX, 0)
}
