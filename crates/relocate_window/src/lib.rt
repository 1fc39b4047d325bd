// The move of the pairs of one frame, in its window of the image and in its registers. `most` is the largest pointer count; it is not tested
// here, and is a part of what the plan is of.
// No entry point: it requires pairs of the right form, whose pointers are at most 256, and an extent inside the image.
#![tactic(auto)]

ghost use Rattle.std.specs.Prelude.{◌≡◌, true, ℕ, ◌≤◌, ◌<◌, length};
ghost use mathlib.Core.List.{flatten};
ghost use Rattle.stackmap.specs.Section.{is_old};
ghost use Rattle.moves.specs.Limits.{pairs_most};
ghost use Rattle.moves.specs.Table.{table_right, look_up};
ghost use Rattle.moves.specs.Plan.{at_pair};
ghost use Rattle.moves.specs.Code.{Follows};
ghost use Rattle.relocate.specs.declared.Cursor as CursorType;
ghost use Rattle.relocate.specs.Limits.{image_most, register_count};
ghost use Rattle.relocate.specs.Restore.{restore};
ghost use Rattle.relocate.specs.Statepoint as spec;
ghost use Rattle.relocate.specs.Statepoint.{right_form};
ghost use Rattle.relocate.specs.Plan.{extent_right};
ghost use Rattle.relocate.specs.Code.{limited, record_of, pool_of, plan_slots, pair_number, Paired, pointers_by};

use moves::{Move, PAIRS_MOST};
use relocate::Cursor;
use relocate_pairs::{fill, pairs};

// The answer of a window names a pointer; a move's names its pair.
pub fn at_pair(m: Move, old: bool, s: &[u8], at: usize, start: usize, count: usize) -> Move
    requires { Paired s.now at start count }
    ensures { (f : CursorType.Cursor) → result ≡ at_pair (pointers_by old (pool_of s.now) f (record_of s.now at)) m }
{
    let place = if m.number == 0 {
        0
    } else {
        pairs::pair_of(old, s, at, start, count, m.place)
    };
    Move { place, ..m }
}

// 19, and the move of the window of `size` bytes from the stack pointer. The record at `at` has `count` pairs, from location `start` on; they
// have the right form, and are `pointers` pointers.
pub fn move_slots(
    s: &[u8],
    at: usize,
    start: usize,
    count: usize,
    pointers: usize,
    image: &mut [u8],
    registers: &mut [u64],
    first: u64,
    size: usize,
    olds: &[u64],
    news: &[u64],
    frame: Cursor,
    old: bool,
    write: bool,
    most: usize,
) -> Move
    requires { Paired s.now at start count × (old ≡ is_old s.now)
        × ((p : ℕ) → p < count → right_form frame.machine old (pool_of s.now) (pair_number (record_of s.now at) p) ≡ true)
        × (pointers ≡ length (flatten (pointers_by old (pool_of s.now) frame (record_of s.now at)))) × (pointers ≤ pairs_most) × (length registers.old ≡ register_count)
        × (extent_right first (length image.old) frame.sp size ≡ true) × (size ≤ image_most) × (table_right olds.now news.now ≡ true) }
    ensures { Follows write result image.new registers.new (look_up olds.now news.now) image.old registers.old
        (plan_slots (restore s.now olds.now news.now first (limited most)) frame size (spec.pairs (record_of s.now at))) }
{
    let mut live = [0u8; PAIRS_MOST];
    let mut bases = [0usize; PAIRS_MOST];
    let mut derived = [0usize; PAIRS_MOST];
    let out = fill::fill(
        &mut live,
        &mut bases,
        &mut derived,
        old,
        s,
        at,
        start,
        count,
        frame,
        size,
    );
    if out < count {
        return Move {
            number: 19,
            place: out,
            count: 0,
        };
    }
    let off = (frame.sp - first) as usize;
    let mut values = [0u64; PAIRS_MOST];
    let m = moves_window::move_window(
        image,
        registers,
        off,
        off + size,
        &live,
        &bases,
        &derived,
        &mut values,
        pointers,
        olds,
        news,
        write,
    );
    at_pair(m, old, s, at, start, count)
}
