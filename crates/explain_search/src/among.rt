// The search of the arrays for a slot: moved before null base before listed only as base before unlisted.
// No entry point: it requires arrays that hold the pointers of a frame, and a table that has passed 14.
ghost use Rattle.std.specs.Prelude.{◌≡◌, true, ◌≤◌, length};
ghost use Rattle.moves.specs.Limits.{pairs_most};
ghost use Rattle.moves.specs.Slots.{state};
ghost use Rattle.moves.specs.Pointers.{or_zero};
ghost use Rattle.moves.specs.Table.{table_right, look_up};
ghost use Rattle.moves.specs.Arrays.{AllPlaced};
ghost use Rattle.relocate.specs.declared.Cursor as CursorType;
ghost use Rattle.relocate.specs.Code.{record_of, pool_of, Paired, pointers_by};
ghost use Rattle.explain.specs.Explain.{slot_of};
ghost use Rattle.explain_pointers.specs.Told.{number_of, told_of, told};

use explain::{Asked, Reason};
use explain_pointers::{first_moved, named, numbers};
use moves::PAIRS_MOST;
use moves_slots::slots;
use moves_table::table;
use relocate_pairs::pairs;

// Where the object of an old base is now.
fn new_start(olds: &[u64], news: &[u64], base: u64) -> u64
    requires { table_right olds.now news.now ≡ true }
    ensures { result ≡ or_zero (look_up olds.now news.now base) }
{
    table::look_up(olds, news, base).unwrap_or(0)
}

// The slot by its number x. The record at `at` has `count` pairs, from location `start` on, which are `pointers` pointers.
pub fn of_number(
    s: &[u8],
    at: usize,
    start: usize,
    count: usize,
    old: bool,
    window: &[u8],
    registers: &[u64],
    live: &[u8; PAIRS_MOST],
    bases: &[usize; PAIRS_MOST],
    derived: &[usize; PAIRS_MOST],
    pointers: usize,
    olds: &[u64],
    news: &[u64],
    x: usize,
) -> Reason
    requires { Paired s.now at start count × (pointers ≤ pairs_most) × AllPlaced (length window.now) (length registers.now) pointers live.now bases.now derived.now
        × (table_right olds.now news.now ≡ true) }
    ensures { (f : CursorType.Cursor) → result ≡ told_of (state window.now registers.now) live.now bases.now derived.now
        (look_up olds.now news.now) pointers (pointers_by old (pool_of s.now) f (record_of s.now at)) x }
{
    let hit = first_moved(window, registers, live, bases, derived, x, pointers);
    if hit < pointers {
        let base = slots::read(window, registers, bases[hit]);
        let pair = pairs::pair_of(old, s, at, start, count, hit);
        return Reason::Moved(pair, base, new_start(olds, news, base));
    }
    if named(live, derived, x, pointers) {
        return Reason::NullBase;
    }
    if named(live, bases, x, pointers) {
        return Reason::OnlyBase;
    }
    Reason::Unlisted
}

// Why the slot moves or does not.
pub fn reason(
    s: &[u8],
    at: usize,
    start: usize,
    count: usize,
    old: bool,
    window: &[u8],
    registers: &[u64],
    live: &[u8; PAIRS_MOST],
    bases: &[usize; PAIRS_MOST],
    derived: &[usize; PAIRS_MOST],
    pointers: usize,
    olds: &[u64],
    news: &[u64],
    sp: u64,
    asked: Asked,
) -> Reason
    requires { Paired s.now at start count × (pointers ≤ pairs_most) × AllPlaced (length window.now) (length registers.now) pointers live.now bases.now derived.now
        × (table_right olds.now news.now ≡ true) }
    ensures { (f : CursorType.Cursor) → result ≡ told (state window.now registers.now) live.now bases.now derived.now
        (look_up olds.now news.now) pointers (pointers_by old (pool_of s.now) f (record_of s.now at)) (number_of sp (slot_of asked)) }
{
    match numbers::number_of(asked, sp) {
        Some(x) => of_number(
            s, at, start, count, old, window, registers, live, bases, derived, pointers, olds,
            news, x,
        ),
        None => Reason::Unlisted,
    }
}
