// Refusal 21, and the new contents of the derived slots: the table is searched once for each pair.
// No entry point: it requires a table that has passed 14, and slots that 18 and 19 have tested.
ghost use Rattle.std.specs.Prelude.{◌≡◌, true, ℕ, ◌≤◌, ◌<◌, length, get_or};
ghost use Rattle.moves.specs.Limits.{pairs_most};
ghost use Rattle.moves.specs.Table.{table_right, look_up};
ghost use Rattle.moves.specs.Slots.{state};
ghost use Rattle.moves.specs.Arrays.{Placed, RenewsOne, Renews};

use crate::slots;
use moves::PAIRS_MOST;
use moves_table::contents;

// Whether the old base of pair k is unknown; and if it isn't, puts the pair's new content in place of the old base.
fn renew_one(
    window: &[u8],
    registers: &[u64],
    live: &[u8; PAIRS_MOST],
    derived: &[usize; PAIRS_MOST],
    values: &mut [u64],
    olds: &[u64],
    news: &[u64],
    k: usize,
) -> bool
    requires { (k < pairs_most) × (k < length values.old) × ((get_or live.now k 0 ≡ 0 → ⊥) → Placed (length window.now) (length registers.now) (get_or derived.now k 0)) × (table_right olds.now news.now ≡ true) }
    ensures { RenewsOne (look_up olds.now news.now) (state window.now registers.now) live.now derived.now values.old k result values.new }
{
    if live[k] == 0 {
        return false;
    }
    let old = slots::read(window, registers, derived[k]);
    match contents::content(old, values[k], olds, news) {
        Some(value) => {
            values[k] = value;
            false
        }
        None => true,
    }
}

// The lowest pair whose old base, in `values`, is neither 0 nor an old start; `pairs` if there is none, and then `values` has the new
// contents of the derived slots.
// Kept: the contract of this public function (`Renews`) answers `pairs` where there is none.
pub fn renew(
    window: &[u8],
    registers: &[u64],
    live: &[u8; PAIRS_MOST],
    derived: &[usize; PAIRS_MOST],
    values: &mut [u64],
    olds: &[u64],
    news: &[u64],
    pairs: usize,
) -> usize
    requires { (pairs ≤ pairs_most) × (pairs ≤ length values.old) × ((k : ℕ) → k < pairs → (get_or live.now k 0 ≡ 0 → ⊥) → Placed (length window.now) (length registers.now) (get_or derived.now k 0)) × (table_right olds.now news.now ≡ true) }
    ensures { Renews (look_up olds.now news.now) (state window.now registers.now) live.now derived.now values.old pairs result values.new }
{
    for k in 0..pairs {
        if renew_one(window, registers, live, derived, values, olds, news, k) {
            return k;
        }
    }
    pairs
}
