// The pointers of a frame, which the arrays of a move hold, looked through for a slot.
// No entry point: it requires arrays that hold the pointers of a frame.
#![tactic(auto)]

ghost use Rattle.std.specs.Prelude.{◌≡◌, ℕ, ◌≤◌, ◌<◌, ltb, length, get_or};
ghost use Rattle.moves.specs.Limits.{pairs_most};
ghost use Rattle.moves.specs.Search.{lowest};
ghost use Rattle.moves.specs.Slots.{state};
ghost use Rattle.moves.specs.Arrays.{Placed, AllPlaced};
ghost use Rattle.explain_pointers.specs.Told.{named_at, moves_at};

use moves::PAIRS_MOST;
use moves_slots::slots;

pub mod numbers;

// Whether pointer k is derived in the slot x, from an old base that is not 0.
fn moves_at(
    window: &[u8],
    registers: &[u64],
    live: &[u8; PAIRS_MOST],
    bases: &[usize; PAIRS_MOST],
    derived: &[usize; PAIRS_MOST],
    x: usize,
    k: usize,
) -> bool
    requires { (k < pairs_most) × ((get_or live.now k 0 ≡ 0 → ⊥) → Placed (length window.now) (length registers.now) (get_or bases.now k 0)) }
    ensures { result ≡ moves_at (state window.now registers.now) live.now bases.now derived.now x k }
{
    live[k] != 0 && derived[k] == x && slots::read(window, registers, bases[k]) != 0
}

// The lowest such pointer, or `pointers` if there is none.
pub fn first_moved(
    window: &[u8],
    registers: &[u64],
    live: &[u8; PAIRS_MOST],
    bases: &[usize; PAIRS_MOST],
    derived: &[usize; PAIRS_MOST],
    x: usize,
    pointers: usize,
) -> usize
    requires { (pointers ≤ pairs_most) × AllPlaced (length window.now) (length registers.now) pointers live.now bases.now derived.now }
    ensures { result ≡ lowest (moves_at (state window.now registers.now) live.now bases.now derived.now x) pointers }
{
    (0..pointers)
        .position(|k| moves_at(window, registers, live, bases, derived, x, k))
        .unwrap_or(pointers)
}

// Whether pointer k has this slot, of its base slots or its derived slots.
fn named_at(live: &[u8; PAIRS_MOST], numbers: &[usize; PAIRS_MOST], x: usize, k: usize) -> bool
    requires { k < pairs_most }
    ensures { result ≡ named_at live.now numbers.now x k }
{
    live[k] != 0 && numbers[k] == x
}

// Whether one of the pointers has it.
pub fn named(
    live: &[u8; PAIRS_MOST],
    numbers: &[usize; PAIRS_MOST],
    x: usize,
    pointers: usize,
) -> bool
    requires { pointers ≤ pairs_most }
    ensures { result ≡ ltb (lowest (named_at live.now numbers.now x) pointers) pointers }
{
    (0..pointers).any(|k| named_at(live, numbers, x, k))
}
