// The slots of a statepoint's pairs (refusal 19), and the arrays that a move takes: pointer k is null where live[k] is 0, and else its base
// slot is at bases[k] and its derived slot at derived[k], both as numbers: counted from the stack pointer, or registers (moves/specs/Arrays).
// No entry point: it requires pairs of the right form, and that the arrays have room for their pointers.
ghost use Rattle.std.specs.Prelude.{◌≡◌, true, not, ℕ, ◌+◌, ◌*◌, ◌≤◌, ◌<◌, length, drop, is_some, IfSome};
ghost use mathlib.Core.List.{◌++◌, flatten};
ghost use Rattle.stackmap.specs.Section.{num_locations};
ghost use Rattle.moves.specs.Limits.{pairs_most};
ghost use Rattle.moves.specs.Search.{lowest};
ghost use Rattle.moves.specs.Arrays as arrays;
ghost use Rattle.relocate.specs.Limits.{image_most, register_count};
ghost use Rattle.relocate.specs.Statepoint.{right_form, inside, pointers_from};
ghost use Rattle.relocate.specs.Code.{record_of, pool_of, RecordInside, pair_from, pair_number, Paired, pointers_by, run_of, RunPlaced, Looked, Room};

use crate::{pairs, reader};
use relocate::Cursor;
use relocate_slots::slots;

// Puts k pointers after n others, from the slots b and d on; it answers how many there are then. What was placed stays so, in a window of
// `size` bytes in which the new ones are.
fn put_run(
    live: &mut [u8],
    bases: &mut [usize],
    derived: &mut [usize],
    n: usize,
    k: usize,
    b: usize,
    d: usize,
    size: usize,
) -> usize
    requires { Room live.old bases.old derived.old × (n + k ≤ pairs_most) × (size ≤ image_most) × RunPlaced size k b × RunPlaced size k d }
    ensures { (result ≡ n + k) × Room live.new bases.new derived.new
        × (arrays.pointers_of result live.new bases.new derived.new
        ≡ arrays.pointers_of n live.old bases.old derived.old ++ pointers_from k (arrays.slot_of b) (arrays.slot_of d))
        × (arrays.AllPlaced size register_count n live.old bases.old derived.old
        → arrays.AllPlaced size register_count result live.new bases.new derived.new) }
{
    for next in 0..k {
        let i = n + next;
        live[i] = 1;
        bases[i] = b + 8 * next;
        derived[i] = d + 8 * next;
    }
    n + k
}

// A pair as `count` pointers from two slots on, by their numbers; 0 means a null pair.
#[derive(Clone, Copy)]
pub struct Run {
    pub count: usize,
    pub base: usize,
    pub derived: usize,
}

// Puts a pair's pointers after n others; it answers how many there are then.
fn put(
    live: &mut [u8],
    bases: &mut [usize],
    derived: &mut [usize],
    n: usize,
    run: Run,
    size: usize,
) -> usize
    requires { Room live.old bases.old derived.old × (n + length (run_of run.count run.base run.derived) ≤ pairs_most)
        × (size ≤ image_most) × (0 < run.count → RunPlaced size run.count run.base) × (0 < run.count → RunPlaced size run.count run.derived) }
    ensures { Room live.new bases.new derived.new
        × (arrays.pointers_of result live.new bases.new derived.new
        ≡ arrays.pointers_of n live.old bases.old derived.old ++ run_of run.count run.base run.derived)
        × (arrays.AllPlaced size register_count n live.old bases.old derived.old
        → arrays.AllPlaced size register_count result live.new bases.new derived.new) }
{
    if run.count == 0 {
        live[n] = 0;
        return n + 1;
    }
    put_run(
        live,
        bases,
        derived,
        n,
        run.count,
        run.base,
        run.derived,
        size,
    )
}

// Where the slots of the pair are whose base is location j, if all are inside the extent of `size` bytes.
fn look(old: bool, s: &[u8], at: usize, j: usize, frame: Cursor, size: usize) -> Option<Run>
    requires { RecordInside s.now at × (j + 1 < num_locations (drop at s.now)) × (size ≤ image_most)
        × (right_form frame.machine old (pool_of s.now) (pair_from (record_of s.now at) j) ≡ true) }
    ensures all_inside { is_some result ≡ inside old (pool_of s.now) frame size (pair_from (record_of s.now at) j) }
    ensures looked { IfSome result (λ r. Looked old (pool_of s.now) frame size (pair_from (record_of s.now at) j) r.count r.base r.derived) }
{
    let b = reader::location(s, at, j);
    let d = reader::location(s, at, j + 1);
    if pairs::null_said(b, d) {
        return Some(Run {
            count: 0,
            base: 0,
            derived: 0,
        });
    }
    let base = slots::slot(frame, old, size, b)?;
    let derived = slots::slot(frame, old, size, d)?;
    Some(Run {
        count: slots::pointers_in(old, b.size),
        base,
        derived,
    })
}

// Fills the arrays with the pointers of all pairs; it answers the lowest pair with a slot that is not wholly inside the extent of `size`
// bytes, or `count` if there is none.
pub fn fill(
    live: &mut [u8],
    bases: &mut [usize],
    derived: &mut [usize],
    old: bool,
    s: &[u8],
    at: usize,
    start: usize,
    count: usize,
    frame: Cursor,
    size: usize,
) -> usize
    requires { Room live.old bases.old derived.old × Paired s.now at start count × (size ≤ image_most)
        × ((p : ℕ) → p < count → right_form frame.machine old (pool_of s.now) (pair_number (record_of s.now at) p) ≡ true)
        × (length (flatten (pointers_by old (pool_of s.now) frame (record_of s.now at))) ≤ pairs_most) }
    ensures { (result ≡ lowest (λ p. not (inside old (pool_of s.now) frame size (pair_number (record_of s.now at) p))) count)
        × Room live.new bases.new derived.new
        × (count ≤ result → arrays.pointers_of (length (flatten (pointers_by old (pool_of s.now) frame (record_of s.now at))))
        live.new bases.new derived.new ≡ flatten (pointers_by old (pool_of s.now) frame (record_of s.now at)))
        × (count ≤ result → arrays.AllPlaced size register_count (length (flatten (pointers_by old (pool_of s.now) frame (record_of s.now at))))
        live.new bases.new derived.new) }
{
    let mut n = 0;
    for p in 0..count {
        let Some(run) = look(old, s, at, start + 2 * p, frame, size) else {
            return p;
        };
        n = put(live, bases, derived, n, run, size);
    }
    count
}
