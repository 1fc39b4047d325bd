// The rows of a frame whose pointers the arrays of a move hold: sixteen numbers a pointer, written one after the other.
// No entry point: it requires arrays that hold the pointers, a table that has passed 14, and room in the list.
#![tactic(auto)]

ghost use Rattle.std.specs.Prelude.{◌≡◌, true, ◌+◌, ◌*◌, ◌^◌, ◌≤◌, ◌<◌, length};
ghost use Rattle.std.proofs.lemmas.List.Edits.{sets};
ghost use Rattle.moves.specs.Limits.{pairs_most};
ghost use Rattle.moves.specs.Slots.{state};
ghost use Rattle.moves.specs.Table.{table_right, look_up};
ghost use Rattle.moves.specs.Arrays.{Placed, AllPlaced};
ghost use Rattle.relocate.specs.Code.{record_of, pool_of, Paired, pointers_by};
ghost use Rattle.explain.specs.Rows.{row_numbers};
ghost use Rattle.explain_rows.specs.Written.{in_order, slot_by, slots_by, row_by};

use explain_numbers::{place, put_head, put_slot, sort};
use explain_search::among;
use moves::PAIRS_MOST;
use moves_slots::slots;
use relocate::Cursor;
use relocate_pairs::pairs;

// The numbers of a pointer.
pub const ROW_NUMBERS: usize = 16;

// Kept: what the functions below take singly of a frame travels together, but the public contracts of `put_rows`, and of
// `explain_search::among` below it, name each argument.

// The slot with the number x: where it is, what it holds, and why it moves or does not.
fn put_told(
    s: &[u8],
    at: usize,
    start: usize,
    count: usize,
    old: bool,
    window: &[u8],
    registers: &[u64],
    live: &[u8; PAIRS_MOST],
    bases: &[usize; PAIRS_MOST],
    derived: &[usize; PAIRS_MOST],
    pointers: usize,
    olds: &[u64],
    news: &[u64],
    frame: Cursor,
    rows: &mut [u64],
    to: usize,
    x: usize,
)
    requires { Paired s.now at start count × (pointers ≤ pairs_most) × AllPlaced (length window.now) (length registers.now) pointers live.now bases.now derived.now
        × (table_right olds.now news.now ≡ true) × (frame.sp + length window.now < 2 ^ 64) × Placed (length window.now) (length registers.now) x × (to + 7 ≤ length rows.old) }
    ensures { rows.new ≡ sets rows.old to (slot_by (state window.now registers.now) live.now bases.now derived.now
        (look_up olds.now news.now) pointers (pointers_by old (pool_of s.now) frame (record_of s.now at)) frame.sp x) }
{
    let content = slots::read(window, registers, x);
    let why = among::of_number(
        s, at, start, count, old, window, registers, live, bases, derived, pointers, olds, news, x,
    );
    put_slot(rows, to, sort(x), place(x, frame.sp), content, why.into());
}

// The slots of pointer k.
fn put_slots(
    s: &[u8],
    at: usize,
    start: usize,
    count: usize,
    old: bool,
    window: &[u8],
    registers: &[u64],
    live: &[u8; PAIRS_MOST],
    bases: &[usize; PAIRS_MOST],
    derived: &[usize; PAIRS_MOST],
    pointers: usize,
    olds: &[u64],
    news: &[u64],
    frame: Cursor,
    rows: &mut [u64],
    to: usize,
    k: usize,
)
    requires { Paired s.now at start count × (pointers ≤ pairs_most) × AllPlaced (length window.now) (length registers.now) pointers live.now bases.now derived.now
        × (table_right olds.now news.now ≡ true) × (frame.sp + length window.now < 2 ^ 64) × (k < pointers) × (to + 14 ≤ length rows.old) }
    ensures { rows.new ≡ sets rows.old to (slots_by (state window.now registers.now) live.now bases.now derived.now
        (look_up olds.now news.now) pointers (pointers_by old (pool_of s.now) frame (record_of s.now at)) frame.sp k) }
{
    let second = to + 7;
    if live[k] == 0 {
        rows[to..to + 14].fill(0);
        return;
    }
    put_told(
        s, at, start, count, old, window, registers, live, bases, derived, pointers, olds, news,
        frame, rows, to, bases[k],
    );
    put_told(
        s, at, start, count, old, window, registers, live, bases, derived, pointers, olds, news,
        frame, rows, second, derived[k],
    );
}

// The rows of a frame at a position, from the place `to` on. The record at `at` has `count` pairs, from location `start` on, which are
// `pointers` pointers.
pub fn put_rows(
    s: &[u8],
    at: usize,
    start: usize,
    count: usize,
    old: bool,
    window: &[u8],
    registers: &[u64],
    live: &[u8; PAIRS_MOST],
    bases: &[usize; PAIRS_MOST],
    derived: &[usize; PAIRS_MOST],
    pointers: usize,
    olds: &[u64],
    news: &[u64],
    frame: Cursor,
    rows: &mut [u64],
    to: usize,
    position: usize,
)
    requires { Paired s.now at start count × (pointers ≤ pairs_most) × AllPlaced (length window.now) (length registers.now) pointers live.now bases.now derived.now
        × (table_right olds.now news.now ≡ true) × (frame.sp + length window.now < 2 ^ 64) × (to + row_numbers * pointers ≤ length rows.old) }
    ensures { rows.new ≡ sets rows.old to (in_order (row_by (state window.now registers.now) live.now bases.now derived.now
        (look_up olds.now news.now) pointers (pointers_by old (pool_of s.now) frame (record_of s.now at)) frame.sp position) pointers 0) }
{
    for k in 0..pointers {
        let next = to + ROW_NUMBERS * k;
        put_head(
            rows,
            next,
            position,
            pairs::pair_of(old, s, at, start, count, k),
        );
        put_slots(
            s,
            at,
            start,
            count,
            old,
            window,
            registers,
            live,
            bases,
            derived,
            pointers,
            olds,
            news,
            frame,
            rows,
            next + 2,
            k,
        );
    }
}
