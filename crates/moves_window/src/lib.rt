// The move of one frame inside its window, the stretch of the stack image that is the frame's extent (window is our own word), and in its
// registers. The crate above finds the window and the pairs' slots; this layer serves it and is no entry point.
//
// Pairs are given by arrays of which the first `pairs` entries count: pair k is null where live[k] is 0, and else its base slot
// is bases[k] and its derived slot derived[k], as numbers: a slot in memory is its first byte, counted from the window's, and register r is
// REGISTERS_FROM + 8 * r.
#![tactic(auto)]

ghost use Rattle.std.specs.Prelude.{◌≡◌, true, ◌-◌, ◌≤◌, length};
ghost use Rattle.moves.specs.Limits.{pairs_most};
ghost use Rattle.moves.specs.Table.{table_right, look_up};
ghost use Rattle.moves.specs.Slots.{state};
ghost use Rattle.moves.specs.Window.{part};
ghost use Rattle.moves.specs.Settle.{settled};
ghost use Rattle.moves.specs.Code.{Settles, SettlesIn};
ghost use Rattle.moves.specs.Arrays.{registers_from, AllPlaced, Judges, pointers_of};

use moves::{Move, PAIRS_MOST};
use moves_slots::{renewal, slots};

mod collisions;

// Refusals 20 and 21 of the pairs of a window, or their count. `values` is lent for the old bases, and then for the new contents of the
// derived slots.
fn judge(
    window: &[u8],
    registers: &[u64],
    live: &[u8; PAIRS_MOST],
    bases: &[usize; PAIRS_MOST],
    derived: &[usize; PAIRS_MOST],
    values: &mut [u64],
    pairs: usize,
    olds: &[u64],
    news: &[u64],
) -> Move
    requires { (pairs ≤ pairs_most) × (pairs ≤ length values.old) × (length window.now ≤ registers_from) × (length registers.now ≤ 32)
        × AllPlaced (length window.now) (length registers.now) pairs live.now bases.now derived.now × (table_right olds.now news.now ≡ true) }
    ensures { Judges (look_up olds.now news.now) (state window.now registers.now) live.now bases.now derived.now pairs result values.new }
{
    slots::read_all(window, registers, live, bases, values, pairs);
    let colliding = collisions::collision(live, bases, derived, values, pairs);
    if colliding < pairs {
        return Move {
            number: 20,
            place: colliding,
            count: 0,
        };
    }
    let unknown = renewal::renew(window, registers, live, derived, values, olds, news, pairs);
    if unknown < pairs {
        return Move {
            number: 21,
            place: unknown,
            count: 0,
        };
    }
    Move {
        number: 0,
        place: 0,
        count: pairs,
    }
}

// The move of the pairs of a window: all is read before any of it is written. Where `write` is false the pairs are only judged.
fn settle_pairs(
    window: &mut [u8],
    registers: &mut [u64],
    live: &[u8; PAIRS_MOST],
    bases: &[usize; PAIRS_MOST],
    derived: &[usize; PAIRS_MOST],
    values: &mut [u64],
    pairs: usize,
    olds: &[u64],
    news: &[u64],
    write: bool,
) -> Move
    requires { (pairs ≤ pairs_most) × (pairs ≤ length values.old) × (length window.old ≤ registers_from) × (length registers.old ≤ 32)
        × AllPlaced (length window.old) (length registers.old) pairs live.now bases.now derived.now × (table_right olds.now news.now ≡ true) }
    ensures { Settles (look_up olds.now news.now) write result (state window.new registers.new) (pointers_of pairs live.now bases.now derived.now) (state window.old registers.old) }
{
    let answer = judge(
        window, registers, live, bases, derived, values, pairs, olds, news,
    );
    if answer.number == 0 && write {
        slots::put_all(window, registers, live, derived, values, pairs);
    }
    answer
}

// The move of a frame whose window is image[off..end], or its judgement. `values` is lent for as many numbers as there are pairs.
// Kept: the contract of this public function (`SettlesIn`) speaks of `write`, which its callers pass on.
pub fn move_window(
    image: &mut [u8],
    registers: &mut [u64],
    off: usize,
    end: usize,
    live: &[u8; PAIRS_MOST],
    bases: &[usize; PAIRS_MOST],
    derived: &[usize; PAIRS_MOST],
    values: &mut [u64],
    pairs: usize,
    olds: &[u64],
    news: &[u64],
    write: bool,
) -> Move
    requires { (off ≤ end) × (end ≤ length image.old) × (pairs ≤ pairs_most) × (pairs ≤ length values.old) × (end - off ≤ registers_from) × (length registers.old ≤ 32)
        × AllPlaced (end - off) (length registers.old) pairs live.now bases.now derived.now × (table_right olds.now news.now ≡ true) }
    ensures { SettlesIn (look_up olds.now news.now) write result image.old image.new registers.old registers.new off (end - off) (pointers_of pairs live.now bases.now derived.now) }
{
    settle_pairs(
        &mut image[off..end],
        registers,
        live,
        bases,
        derived,
        values,
        pairs,
        olds,
        news,
        write,
    )
}

// The answer to a frame whose window is image[off..end]: its pairs are only judged, and nothing but `values` can be written.
pub fn judge_window(
    image: &[u8],
    registers: &[u64],
    off: usize,
    end: usize,
    live: &[u8; PAIRS_MOST],
    bases: &[usize; PAIRS_MOST],
    derived: &[usize; PAIRS_MOST],
    values: &mut [u64],
    pairs: usize,
    olds: &[u64],
    news: &[u64],
) -> Move
    requires { (off ≤ end) × (end ≤ length image.now) × (pairs ≤ pairs_most) × (pairs ≤ length values.old) × (end - off ≤ registers_from) × (length registers.now ≤ 32)
        × AllPlaced (end - off) (length registers.now) pairs live.now bases.now derived.now × (table_right olds.now news.now ≡ true) }
    ensures { result ≡ settled (look_up olds.now news.now) (pointers_of pairs live.now bases.now derived.now) (state (part image.now off (end - off)) registers.now) }
{
    judge(
        &image[off..end],
        registers,
        live,
        bases,
        derived,
        values,
        pairs,
        olds,
        news,
    )
}
