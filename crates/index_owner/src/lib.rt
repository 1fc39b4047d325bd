// Which function owns a record, by the record's number: the record counts are added up once, with a mark at every STEP-th function, and a
// record's function is looked for from the last mark that is not above it.
// No entry point: it requires a section of version 3 whose functions are inside and whose record counts add up.
#![tactic(auto)]

ghost use Rattle.std.specs.Prelude.{◌≡◌, false, ◌+◌, ◌*◌, ◌≤◌, ◌<◌, length};
ghost use Rattle.stackmap.specs.Section.{num_functions, num_records, is_old};
ghost use Rattle.stackmap.specs.Walk.{Walkable};
ghost use Rattle.index_owner.specs.Owner.{before, Owns, Marking, Marked};

use stackmap::layout;

// As many marks as reach over the functions of the longest section: a function has 24 bytes.
pub const MARKS: usize = 8192;

pub const STEP: usize = 86;

// The record count of function number `function`.
fn count_of(s: &[u8], function: usize) -> u64
    requires { Walkable s.now × (is_old s.now ≡ false) × (function < num_functions s.now) }
    ensures { before s.now (function + 1) ≡ before s.now function + result }
{
    wire::u64_at(
        s,
        layout::HEADER_SIZE + layout::FUNCTION_SIZE * function + layout::RECORD_COUNT_AT,
    )
}

// How many records the functions from `first` up to `end` have.
fn counts_of(s: &[u8], first: usize, end: usize) -> u64
    requires { Walkable s.now × (is_old s.now ≡ false) × (num_records s.now < 4294967296)
        × (first ≤ end) × (end ≤ num_functions s.now) }
    ensures { before s.now end ≡ before s.now first + result }
{
    let mut total: u64 = 0;
    for f in first..end {
        total += count_of(s, f);
    }
    total
}

// Fills the marks; the answer is how many there are.
pub fn mark(s: &[u8], marks: &mut [u32]) -> usize
    requires { Walkable s.now × (is_old s.now ≡ false) × (num_records s.now < 4294967296)
        × (num_functions s.now ≤ 86 * length marks.old) }
    ensures { Marked s.now marks.new result }
{
    let functions = wire::u32_at(s, layout::NUM_FUNCTIONS_AT) as usize;
    let count = functions.div_ceil(STEP);
    let mut base: u64 = 0;
    for i in 0..count {
        marks[i] = base as u32;
        let first = STEP * i;
        base += counts_of(s, first, functions.min(first + STEP));
    }
    count
}

// The last mark that is not above the record. They rise, and the first is 0.
fn mark_of(s: &[u8], marks: &[u32], count: usize, number: u64) -> usize
    requires { Marked s.now marks.now count × (0 < count) }
    ensures { (result < count) × (before s.now (86 * result) ≤ number) }
{
    marks[..count].partition_point(|&mark| u64::from(mark) <= number) - 1
}

// The function that owns the record with this number.
pub fn owner_of(s: &[u8], marks: &[u32], count: usize, number: u64) -> usize
    requires { Walkable s.now × (is_old s.now ≡ false) × Marked s.now marks.now count × (number < num_records s.now) }
    ensures { Owns s.now number result }
{
    let near = mark_of(s, marks, count, number);
    let mut f = STEP * near;
    let mut left = number - u64::from(marks[near]);
    let mut here = count_of(s, f);
    while here <= left {
        left -= here;
        f += 1;
        here = count_of(s, f);
    }
    f
}
