// Filling an address index: document 02, request 4.
#![tactic(auto)]

ghost use Rattle.std.specs.Prelude.{◌≡◌, false, ◌*◌, ◌≤◌, ◌<◌, ◌++◌, length, drop};
ghost use Rattle.stackmap.specs.Section.{num_records, is_old};
ghost use Rattle.stackmap.specs.Check.{Accepted};
ghost use Rattle.index.specs.Index.{index_of, fill_index};
ghost use Rattle.index.specs.Answers.{Answers};

use index::Written;
use refusals::Refusal;
use stackmap::layout;
use stackmap_tables::tables;

// The refusals of filling an index, beside the section's own.
const TOO_SHORT: u8 = 24;

const OTHER_VERSION: u8 = 27;

// A refusal; nothing is written.
fn refused(number: u8, place: usize) -> Written
    ensures { (result.number ≡ number) × (result.place ≡ place) × (result.written ≡ 0) }
{
    Written {
        number,
        place,
        written: 0,
    }
}

// The index: the rows in section order, sorted only if they are not in order already.
fn put_index(s: &[u8], index: &mut [u64], records: usize)
    requires { Accepted s.now × (is_old s.now ≡ false) × (records ≡ num_records s.now)
        × (records < 4294967296) × (2 * records ≤ length index.old) }
    ensures { index.new ≡ index_of s.now ++ drop (2 * records) index.old }
{
    if index_rows::put_rows(s, index) {
        return;
    }
    sorted_shell::sort(index, records);
}

// The index of a section in the lent list, and how many of its entries were written; or the section's refusal, 27 on version 1, 24 if the
// list is too short. What lies beyond the entries is as it was, and so is the whole list on a refusal.
pub fn fill(section: &[u8], index: &mut [u64]) -> Written
    ensures { Answers result index.new (fill_index section.now index.old) }
{
    match stackmap_check::check(section) {
        Err(Refusal(cause, place)) => refused(cause.number(), place),
        Ok(_) => {
            let old = tables::is_old(section);
            let records = wire::u32_at(section, layout::NUM_RECORDS_AT) as usize;
            let entries = 2 * records;
            if old {
                return refused(OTHER_VERSION, 0);
            }
            if index.len() < entries {
                return refused(TOO_SHORT, 0);
            }
            put_index(section, index, records);
            Written {
                number: 0,
                place: 0,
                written: entries,
            }
        }
    }
}
