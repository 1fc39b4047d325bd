// The rows of an index, written in section order.
// No entry point: it requires an accepted section of version 3, and room for its rows.
#![tactic(auto)]

ghost use Rattle.std.specs.Prelude.{◌≡◌, false, true, ◌+◌, ◌*◌, ◌^◌, ◌≤◌, ◌<◌, length, set};
ghost use Rattle.stackmap.specs.Section.{num_functions, num_records, is_old, constants_at, records_at, address};
ghost use Rattle.stackmap.specs.Walk.{entry_at};
ghost use Rattle.stackmap.specs.Check.{Accepted};
ghost use Rattle.sorted_pairs.specs.Pairs.{Stepped};
ghost use Rattle.index_rows.specs.Filled.{in_place};

use stackmap::{Turn, layout};
use stackmap_check::walk;
use stackmap_tables::shape;

// The two entries of the record `number`.
fn put_row(index: &mut [u64], number: usize, address: u64)
    requires { 2 * number + 1 < length index.old }
    ensures { index.new ≡ set (set index.old (2 * number) address) (2 * number + 1) number }
{
    index[2 * number..2 * number + 2].copy_from_slice(&[address, number as u64]);
}

// Where the records of a version 3 section begin.
pub fn first_record(s: &[u8]) -> usize
    requires { (is_old s.now ≡ false) × (records_at s.now ≤ length s.now) }
    ensures { result ≡ records_at s.now }
{
    let functions = wire::u32_at(s, layout::NUM_FUNCTIONS_AT) as usize;
    let constants = wire::u32_at(s, layout::NUM_CONSTANTS_AT) as usize;
    layout::HEADER_SIZE + layout::FUNCTION_SIZE * functions + layout::CONSTANT_SIZE * constants
}

// The address of the record at `at`, of function number `function`.
pub fn address_at(s: &[u8], function: usize, at: usize) -> u64
    requires { (is_old s.now ≡ false) × (constants_at s.now ≤ length s.now) × (function < num_functions s.now)
        × (at + 16 ≤ length s.now) × (address (entry_at s.now 0 function at) < 2 ^ 64) }
    ensures { result ≡ address (entry_at s.now 0 function at) }
{
    let start = walk::owner_address(s, false, function);
    start + wire::u32_at(s, at + layout::INSTRUCTION_OFFSET_AT) as u64
}

// The rows of all records in section order, and whether they are in order of address already: a second walk over an accepted section,
// which needs no check.
pub fn put_rows(s: &[u8], index: &mut [u64]) -> bool
    requires { Accepted s.now × (is_old s.now ≡ false) × (2 * num_records s.now ≤ length index.old) }
    ensures { (index.new ≡ in_place s.now index.old)
        × (result ≡ true → Stepped index.new 1 (num_records s.now)) }
{
    let count = wire::u32_at(s, layout::NUM_RECORDS_AT);
    let mut p = first_record(s);
    let mut turn = walk::start(s, false);
    let mut last: u64 = 0;
    let mut rises = true;
    for number in 0..count as usize {
        let t = walk::owner(s, turn);
        let next = t.next;
        let address = address_at(s, next - 1, p);
        put_row(index, number, address);
        rises = rises && last <= address;
        last = address;
        p += shape::record_shape(&s[p..], false).size;
        turn = Turn {
            next,
            left: t.left - 1,
        };
    }
    rises
}
