// Statepoints (refusal 12), and where their pairs stand. The record stands at `at`.
// No entry point: it requires a record that stands there.
ghost use Rattle.std.specs.Prelude.{◌≡◌, true, ◌≤◌, length, drop};
ghost use Rattle.stackmap.specs.Section.{num_locations};
ghost use Rattle.relocate.specs.Limits.{head_locations};
ghost use Rattle.relocate.specs.Statepoint.{constant_head, paired_rest, is_statepoint};
ghost use Rattle.relocate.specs.Code.{record_of, RecordInside, Paired};

use crate::reader;
use stackmap::layout;
use stackmap_tables::shape;

// The locations at a statepoint's head; the last of them holds the deopt count.
const HEAD_LOCATIONS: usize = 3;

const DEOPT_AT: usize = 2;

// Whether the first three locations have kind 4.
#[tactic(auto, unfolding(relocate::specs::Statepoint::constant_head))]
fn constant_head(s: &[u8], at: usize) -> bool
    requires { RecordInside s.now at × (head_locations ≤ num_locations (drop at s.now)) }
    ensures { result ≡ constant_head (record_of s.now at) }
{
    reader::location(s, at, 0).kind == layout::KIND_CONSTANT
        && reader::location(s, at, 1).kind == layout::KIND_CONSTANT
        && reader::location(s, at, 2).kind == layout::KIND_CONSTANT
}

// Whether the deopt count leaves whole pairs, and there are no live-outs; the record has `count` locations and `outs` live-outs.
fn paired_rest(s: &[u8], at: usize, count: usize, outs: usize) -> bool
    requires { RecordInside s.now at × (head_locations ≤ count) × (count ≡ length (record_of s.now at).locations) × (outs ≡ length (record_of s.now at).live_outs) }
    ensures { result ≡ paired_rest (record_of s.now at) }
{
    let d = reader::location(s, at, DEOPT_AT);
    let deopt = d.offset;
    if deopt >= layout::NEGATIVE_FROM {
        return false;
    }
    let start = HEAD_LOCATIONS + deopt as usize;
    start <= count && (count - start) % 2 == 0 && outs == 0
}

#[tactic(auto, unfolding(relocate::specs::Statepoint::is_statepoint))]
pub fn is_statepoint(s: &[u8], at: usize) -> bool
    requires { RecordInside s.now at }
    ensures { result ≡ is_statepoint (record_of s.now at) }
{
    let shape = shape::shape_at(s, at);
    shape.locations >= HEAD_LOCATIONS
        && constant_head(s, at)
        && paired_rest(s, at, shape.locations, shape.outs)
}

// The number of the first location that is of a pair, and how many pairs there are.
#[derive(Clone, Copy)]
pub struct Pairs {
    pub start: usize,
    pub count: usize,
}

pub fn pairs_of(s: &[u8], at: usize) -> Pairs
    requires { RecordInside s.now at × (is_statepoint (record_of s.now at) ≡ true) }
    ensures { Paired s.now at result.start result.count }
{
    let shape = shape::shape_at(s, at);
    let d = reader::location(s, at, DEOPT_AT);
    let start = HEAD_LOCATIONS + d.offset as usize;
    Pairs {
        start,
        count: (shape.locations - start) / 2,
    }
}
