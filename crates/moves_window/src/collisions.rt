// Refusal 20.
// No entry point: the arrays hold so many pairs, and their slots are inside the window or among the registers, as the caller has shown.
// Slots are numbers, a register's past every window's, and so all of them compare alike.
ghost use Rattle.std.specs.Prelude.{◌≡◌, true, false, ◌+◌, ◌≤◌, ◌<◌, ◌^◌, length};
ghost use Rattle.moves.specs.Limits.{pointer_size, pairs_most};
ghost use Rattle.moves.specs.Arrays.{overlap_at, any_overlap_at, slots_clash_at, Within, clash_at, first_clash};

use moves::{PAIRS_MOST, POINTER_SIZE};

// Two slots share a byte and are not the same.
#[tactic(auto, unfolding(moves::specs::Arrays::overlap_at))]
fn overlap(x: usize, y: usize) -> bool
    requires { (x + pointer_size < 2 ^ 64) × (y + pointer_size < 2 ^ 64) }
    ensures { result ≡ overlap_at x y }
{
    x != y && x < y + POINTER_SIZE && y < x + POINTER_SIZE
}

// Of two pairs, by their base and derived slots: two listed slots overlap without being equal.
#[tactic(auto, unfolding(moves::specs::Arrays::any_overlap_at))]
fn any_overlap(b: usize, d: usize, b2: usize, d2: usize) -> bool
    requires { (b + pointer_size < 2 ^ 64) × (d + pointer_size < 2 ^ 64) × (b2 + pointer_size < 2 ^ 64) × (d2 + pointer_size < 2 ^ 64) }
    ensures { result ≡ any_overlap_at b d b2 d2 }
{
    overlap(b, b2) || overlap(b, d2) || overlap(d, b2) || overlap(d, d2)
}

// Whether four slots begin at multiples of 8, as nearly all do: then none overlaps another without being equal. False says nothing.
fn all_aligned(b: usize, d: usize, b2: usize, d2: usize) -> bool
    ensures { result ≡ true → any_overlap_at b d b2 d2 ≡ false }
{
    (b | d | (b2 | d2)) % POINTER_SIZE == 0
}

// The same as `any_overlap`, with a quick look first.
fn overlapping(b: usize, d: usize, b2: usize, d2: usize) -> bool
    requires { (b + pointer_size < 2 ^ 64) × (d + pointer_size < 2 ^ 64) × (b2 + pointer_size < 2 ^ 64) × (d2 + pointer_size < 2 ^ 64) }
    ensures { result ≡ any_overlap_at b d b2 d2 }
{
    !all_aligned(b, d, b2, d2) && any_overlap(b, d, b2, d2)
}

// Two pairs that are not null clash; v and v2 are their old bases.
#[tactic(auto, unfolding(moves::specs::Arrays::slots_clash_at))]
fn clash(b: usize, d: usize, v: u64, b2: usize, d2: usize, v2: u64) -> bool
    requires { (b + pointer_size < 2 ^ 64) × (d + pointer_size < 2 ^ 64) × (b2 + pointer_size < 2 ^ 64) × (d2 + pointer_size < 2 ^ 64) }
    ensures { result ≡ slots_clash_at b d v b2 d2 v2 }
{
    overlapping(b, d, b2, d2) || d == d2 && v != v2
}

// Pairs p and q clash; a null pair clashes with none. `contents` has the old bases.
#[tactic(auto, unfolding(moves::specs::Arrays::clash_at))]
fn clash_at(
    live: &[u8; PAIRS_MOST],
    bases: &[usize; PAIRS_MOST],
    derived: &[usize; PAIRS_MOST],
    contents: &[u64],
    pairs: usize,
    p: usize,
    q: usize,
) -> bool
    requires { (pairs ≤ pairs_most) × (pairs ≤ length contents.now) × (p < pairs) × (q < pairs) × Within (2 ^ 63) pairs live.now bases.now derived.now }
    ensures { result ≡ clash_at live.now bases.now derived.now contents.now p q }
{
    live[p] != 0
        && live[q] != 0
        && clash(
            bases[p],
            derived[p],
            contents[p],
            bases[q],
            derived[q],
            contents[q],
        )
}

// The lowest pair that collides with itself or an earlier one; `pairs` if none does. The search stops at the first.
// `contents` has the old bases.
pub fn collision(
    live: &[u8; PAIRS_MOST],
    bases: &[usize; PAIRS_MOST],
    derived: &[usize; PAIRS_MOST],
    contents: &[u64],
    pairs: usize,
) -> usize
    requires { (pairs ≤ pairs_most) × (pairs ≤ length contents.now) × Within (2 ^ 63) pairs live.now bases.now derived.now }
    ensures { result ≡ first_clash live.now bases.now derived.now contents.now pairs }
{
    for p in 0..pairs {
        for q in 0..=p {
            if clash_at(live, bases, derived, contents, pairs, p, q) {
                return p;
            }
        }
    }
    pairs
}
