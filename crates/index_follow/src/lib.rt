// A list of pairs that a walk over the records follows: each record's pair is looked for in it.
// No entry point: it requires a place that an earlier step has given, and a record that stands there.
#![tactic(auto)]

ghost use Rattle.std.specs.Prelude.{◌≡◌, ◌+◌, ◌^◌, ◌≤◌, ◌<◌, length, leb};
ghost use Rattle.stackmap.specs.Section.{address};
ghost use Rattle.stackmap.specs.Walk.{owner_at, entry_at};
ghost use Rattle.index.specs.Numbered.{rows_of};
ghost use Rattle.index_follow.specs.Seen.{seen, Following, Began};

use stackmap::layout;

// Where the walk looks for its first pair: 0, or n + 1 if the list has not the length of n pairs or does not rise.
pub fn first_place(list: &[u64], n: usize) -> usize
    requires { n < 2 ^ 32 }
    ensures { Following list.now n result × Began list.now n result }
{
    if list.len() == 2 * n && sorted_pairs::rises(list, n) {
        0
    } else {
        n + 1
    }
}

// The place after that of the pair of record `number`, which stands at `at` and belongs to a function that starts at `start`; the pair is
// looked for at `place` first. n + 1 if it is not there, or an earlier one was not.
// Kept: what may not change, the public clause lets a place past n mean that the list is wrong (`Following` in specs/Seen.antt).
pub fn next_place(
    s: &[u8],
    list: &[u64],
    n: usize,
    start: u64,
    number: usize,
    function: usize,
    at: usize,
    place: usize,
) -> usize
    requires { (start ≡ (owner_at s.now function).function.address) × (at + 16 ≤ length s.now) × (address (entry_at s.now number function at) < 2 ^ 64) × (n < 2 ^ 32) × Following list.now n place }
    ensures { Following list.now n result × (leb result n ≡ seen (rows_of n list.now) (entry_at s.now number function at) (leb place n)) }
{
    if place > n {
        return place;
    }
    let offset = u64::from(wire::u32_at(s, at + layout::INSTRUCTION_OFFSET_AT));
    let here = sorted_pairs::place_of(list, n, start + offset, number as u64, place);
    here + 1
}
