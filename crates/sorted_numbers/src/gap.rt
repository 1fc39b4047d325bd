// Two neighbours of a sorted list, with no entry strictly between them: a number that lies there is known not to be an entry by two
// comparisons, and one at the upper neighbour is found without a search.
// No entry point: it requires a sorted list, and a gap of that list.
ghost use Rattle.std.specs.Prelude.{ℕ, ◌+◌, ◌≤◌, ◌<◌, length, get_or};
ghost use Rattle.sorted.specs.Sorted.{Sorted, LowerBound};
ghost use Rattle.sorted_numbers.specs.Numbers.{Between};

// The first `place` entries are at most `below`, and the others at least `above`.
#[derive(Clone, Copy)]
pub struct Gap {
    pub below: u64,
    pub above: u64,
    pub place: usize,
}

// How many of the entries lie below x: where x lies in the gap or at its upper end, without a search.
pub fn place(list: &[u64], count: usize, gap: Gap, x: u64) -> usize
    requires { (count ≤ length list.now) × Sorted list.now count
        × Between list.now count gap.below gap.above gap.place }
    ensures { LowerBound list.now count x result }
{
    if gap.below < x && x <= gap.above {
        return gap.place;
    }
    sorted::lower_bound(list, count, x)
}

// The entry at i, which is at least all before it; where there is none, 0.
fn before(list: &[u64], count: usize, i: usize) -> u64
    requires { (count ≤ length list.now) × Sorted list.now count × (i ≤ count) }
    ensures { (j : ℕ) → j < i → get_or list.now j 0 ≤ result }
{
    if i > 0 { list[i - 1] } else { 0 }
}

// The entry at i, which is at most all after it; where there is none, the highest number.
fn from(list: &[u64], count: usize, i: usize) -> u64
    requires { (count ≤ length list.now) × Sorted list.now count }
    ensures { (j : ℕ) → i ≤ j → j < count → result ≤ get_or list.now j 0 }
{
    if i < count { list[i] } else { u64::MAX }
}

// The gap around x, whose lower bound is i; where x is an entry, the gap above it.
pub fn around(list: &[u64], count: usize, x: u64, i: usize) -> Gap
    requires { (count ≤ length list.now) × Sorted list.now count × LowerBound list.now count x i }
    ensures { Between list.now count result.below result.above result.place }
{
    if i < count && list[i] == x {
        return Gap {
            below: x,
            above: from(list, count, i + 1),
            place: i + 1,
        };
    }
    Gap {
        below: before(list, count, i),
        above: from(list, count, i),
        place: i,
    }
}
