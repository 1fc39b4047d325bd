// The pairs of a statepoint: their form (refusal 18), how many pointers they are (refusal 17), and which pair a pointer is of. The record
// stands at `at`, and a pair is given by its base's location number j; the first pair's is `start`. `old` is true for version 1.
// No entry point: it requires a statepoint that stands there.
ghost use Rattle.std.specs.Prelude.{◌≡◌, not, ◌||◌, ◌+◌, ◌≤◌, ◌<◌, eqb, drop, is_some, IfSome};
ghost use Rattle.stackmap.specs.Section.{num_locations};
ghost use Rattle.moves.specs.Search.{lowest};
ghost use Rattle.moves.specs.Plan.{pair_of};
ghost use Rattle.relocate.specs.declared.Cursor as CursorType;
ghost use Rattle.relocate.specs.Statepoint as spec;
ghost use Rattle.relocate.specs.Statepoint.{right_form};
ghost use Rattle.relocate.specs.Code.{record_of, pool_of, RecordInside, pair_from, pair_number, Paired, null_said, form_said, pointers_by, count_of, total_of};

use crate::reader;
use questions::LocationAnswer;
use relocate::Machine;
use relocate_slots::slots;

// Whether both locations are constants equal to 0.
#[tactic(auto, unfolding(relocate::specs::Code::null_said))]
pub fn null_said(base: LocationAnswer, derived: LocationAnswer) -> bool
    ensures { result ≡ null_said base derived }
{
    slots::is_zero(base) && slots::is_zero(derived)
}

// In version 3 both locations of a pair have one size.
fn size_said(old: bool, base: u16, derived: u16) -> bool
    ensures { result ≡ (old || eqb base derived) }
{
    old || base == derived
}

// Whether a pair is null, or both its locations are slots, of one size.
#[tactic(auto, unfolding(relocate::specs::Code::form_said, relocate::specs::Statepoint::same_size))]
fn form_said(machine: Machine, old: bool, base: LocationAnswer, derived: LocationAnswer) -> bool
    ensures { result ≡ form_said machine old base derived }
{
    null_said(base, derived)
        || slots::is_slot(machine, old, base)
            && slots::is_slot(machine, old, derived)
            && size_said(old, base.size, derived.size)
}

fn right_form(machine: Machine, old: bool, s: &[u8], at: usize, j: usize) -> bool
    requires { RecordInside s.now at × (j + 1 < num_locations (drop at s.now)) }
    ensures { result ≡ right_form machine old (pool_of s.now) (pair_from (record_of s.now at) j) }
{
    let base = reader::location(s, at, j);
    let derived = reader::location(s, at, j + 1);
    form_said(machine, old, base, derived)
}

// How many pointers a pair is.
fn pointers_of(old: bool, s: &[u8], at: usize, j: usize) -> usize
    requires { RecordInside s.now at × (j + 1 < num_locations (drop at s.now)) }
    ensures { (result ≡ count_of old (pool_of s.now) (pair_from (record_of s.now at) j)) × (result ≤ 8192) }
{
    let base = reader::location(s, at, j);
    let derived = reader::location(s, at, j + 1);
    if null_said(base, derived) {
        return 1;
    }
    slots::pointers_in(old, base.size)
}

// How many pointers a pair of the right form is. A quick look first: it answers for nearly every pair of version 3.
fn form_of(machine: Machine, old: bool, s: &[u8], at: usize, j: usize) -> Option<usize>
    requires { RecordInside s.now at × (j + 1 < num_locations (drop at s.now)) }
    ensures right { is_some result ≡ right_form machine old (pool_of s.now) (pair_from (record_of s.now at) j) }
    ensures counted { IfSome result (λ n. (n ≡ count_of old (pool_of s.now) (pair_from (record_of s.now at) j)) × (n ≤ 8192)) }
{
    if relocate_glance::plain(machine, s, at, j) {
        return Some(1);
    }
    if right_form(machine, old, s, at, j) {
        return Some(pointers_of(old, s, at, j));
    }
    None
}

// The lowest pair of wrong form, or how many pairs there are; and how many pointers the pairs before it are.
// Kept: the contract of the public `check_forms` speaks of both fields.
#[derive(Clone, Copy)]
pub struct Forms {
    pub wrong: usize,
    pub pointers: usize,
}

pub fn check_forms(
    machine: Machine,
    old: bool,
    s: &[u8],
    at: usize,
    start: usize,
    count: usize,
) -> Forms
    requires { Paired s.now at start count }
    ensures { (result.wrong ≡ lowest (λ p. not (right_form machine old (pool_of s.now) (pair_number (record_of s.now at) p))) count)
        × (count ≤ result.wrong → result.pointers ≡ total_of (count_of old (pool_of s.now)) (spec.pairs (record_of s.now at))) }
{
    let mut pointers = 0;
    for p in 0..count {
        let Some(found) = form_of(machine, old, s, at, start + 2 * p) else {
            return Forms { wrong: p, pointers };
        };
        pointers += found;
    }
    Forms {
        wrong: count,
        pointers,
    }
}

// The number of the pair that a pointer is of; `count` if there is no such pointer.
pub fn pair_of(old: bool, s: &[u8], at: usize, start: usize, count: usize, pointer: usize) -> usize
    requires { Paired s.now at start count }
    ensures { (f : CursorType.Cursor) → result ≡ pair_of (pointers_by old (pool_of s.now) f (record_of s.now at)) pointer }
{
    let mut left = pointer;
    for p in 0..count {
        let n = pointers_of(old, s, at, start + 2 * p);
        if left < n {
            return p;
        }
        left -= n;
    }
    count
}
