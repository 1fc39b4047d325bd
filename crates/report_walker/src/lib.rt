// A walker over the records of a section: document 01, "a walker that keeps hold of the section it was opened on". It is a struct of the
// section's reference and a place. Three thin functions make it or take it apart; `step_at` is the step over plain values.
// No entry point: it requires a place where a walk can stand, which `first` gives.
#![tactic(auto)]

ghost use Rattle.std.specs.Prelude.{◌≡◌, ◌≤◌, length};
ghost use Rattle.stackmap.specs.Section.{records_at};
ghost use Rattle.stackmap.specs.Walk.{Walkable};
ghost use Rattle.report_walker.specs.Step.{Standing, First, Stepping};

use refusals::Refusal;
use stackmap::{Turn, layout};
use stackmap_check::walk;
use stackmap_tables::tables;

// Where a walk stands: the next record's number and first byte, whose it is (see `Turn`), and how many records are ahead. `old` is true for
// version 1; `constants` is how many constants the section has.
#[derive(Clone, Copy)]
pub struct Place {
    pub old: bool,
    pub constants: u32,
    pub next: usize,
    pub left: u64,
    pub remaining: u32,
    pub number: usize,
    pub at: usize,
}

#[derive(Clone, Copy)]
pub struct Walker<'a> {
    pub section: &'a [u8],
    pub place: Place,
}

// The place before the first record, which begins at `at`.
pub fn first(s: &[u8], at: usize) -> Place
    requires { Walkable s.now × (at ≡ records_at s.now) × (at ≤ length s.now) }
    ensures { First s.now result }
{
    let old = tables::is_old(s);
    let turn = walk::start(s, old);
    Place {
        old,
        constants: wire::u32_at(s, layout::NUM_CONSTANTS_AT),
        next: turn.next,
        left: turn.left,
        remaining: wire::u32_at(s, layout::NUM_RECORDS_AT),
        number: 0,
        at,
    }
}

// The record at a place: its refusal, or the place after it; nothing where no record is ahead.
pub fn step_at(s: &[u8], place: Place) -> Result<Option<Place>, Refusal>
    requires { Standing s.now place }
    ensures { Stepping s.now place result }
{
    if place.remaining == 0 {
        return Ok(None);
    }
    let turn = walk::owner(
        s,
        Turn {
            next: place.next,
            left: place.left,
        },
    );
    let next = turn.next;
    let end = walk::record_at(s, place.old, place.constants, next - 1, place.at)?;
    Ok(Some(Place {
        next,
        left: turn.left - 1,
        remaining: place.remaining - 1,
        number: place.number + 1,
        at: end,
        ..place
    }))
}

// A walker at a place of a section.
pub fn open_at<'a>(section: &'a [u8], place: Place) -> Walker<'a>
    ensures { (result.section ≡ section.entry) × (result.place ≡ place) }
{
    Walker { section, place }
}

// What stands at the walker's place.
pub fn next<'a>(w: Walker<'a>) -> Result<Option<Place>, Refusal>
    requires { Standing w.section.now w.place }
    ensures { Stepping w.entry.section.now w.entry.place result }
{
    step_at(w.section, w.place)
}

// One step of a walker that is opened at a place: for a loop over plain values.
pub fn next_from(s: &[u8], place: Place) -> Result<Option<Place>, Refusal>
    requires { Standing s.now place }
    ensures { Stepping s.now place result }
{
    next(open_at(s, place))
}
