// The stages of a plan up to the second 17, one a function. `most` is the largest pointer count, `long` the image's length. The move table is
// not read by any of them: what they promise holds for any.
// No entry point: each stage requires what the stages before it have tested.
ghost use Rattle.std.specs.Prelude.{◌≡◌, true, not, ◌||◌, List, ℕ, ◌≤◌, leb};
ghost use Rattle.stackmap.specs.Section.{is_old};
ghost use Rattle.stackmap.specs.Check.{Accepted};
ghost use Rattle.questions.specs.Questions.{first_of, sought};
ghost use Rattle.moves.specs.Limits.{pairs_most};
ghost use Rattle.relocate.specs.Restore.{restore};
ghost use Rattle.relocate.specs.Statepoint as spec;
ghost use Rattle.relocate.specs.Plan.{image_right, only, plan_pairs, plan_record};
ghost use Rattle.relocate.specs.Code.{limited, record_of, plan_entry, RecordInside, Paired};
ghost use Rattle.relocate_plan.specs.Outlined.{refused_outline, OutlinesPairs, Outlines};

use crate::{Outline, extent};
use questions::Found;
use relocate::Cursor;
use relocate_pairs::{pairs, statepoint};
use stackmap_tables::tables;

// A refusal, with nothing known of the record.
pub fn refused(number: u8, place: usize) -> Outline
    ensures { result ≡ refused_outline number place }
{
    Outline {
        number,
        place,
        size: 0,
        pointers: 0,
        at: 0,
        start: 0,
        count: 0,
        old: false,
    }
}

// 18, and 17 over the pointers.
fn outline_pairs(
    s: &[u8],
    at: usize,
    start: usize,
    count: usize,
    size: usize,
    frame: Cursor,
    old: bool,
    most: usize,
) -> Outline
    requires { Paired s.now at start count × (old ≡ is_old s.now) × (old ≡ true → count ≤ most) × (most ≤ pairs_most) }
    ensures { (olds news : List ℕ) (first : ℕ) → OutlinesPairs (restore s.now olds news first (limited most)) frame size
        (plan_pairs (restore s.now olds news first (limited most)) frame size (spec.pairs (record_of s.now at))) result }
{
    let machine = frame.machine;
    let forms = pairs::check_forms(machine, old, s, at, start, count);
    let wrong = forms.wrong;
    if wrong < count {
        return refused(18, wrong);
    }
    let pointers = forms.pointers;
    if pointers > most {
        return refused(17, 0);
    }
    Outline {
        number: 0,
        place: 0,
        size,
        pointers,
        at,
        start,
        count,
        old,
    }
}

// In version 1 17 is over the pairs, and tested before 18.
fn too_many(old: bool, count: usize, most: usize) -> bool
    ensures { not result ≡ (not old || leb count most) }
{
    old && count > most
}

// 12, 16, version 1's 17 and what follows, of the record at `at`, of a function with this stack size.
fn outline_record(
    s: &[u8],
    at: usize,
    size: u64,
    long: usize,
    first: u64,
    frame: Cursor,
    most: usize,
) -> Outline
    requires { RecordInside s.now at × (image_right first long ≡ true) × (most ≤ pairs_most) }
    ensures { (olds news : List ℕ) → Outlines (restore s.now olds news first (limited most)) long frame
        (plan_record (restore s.now olds news first (limited most)) long frame size (record_of s.now at)) result }
{
    if !statepoint::is_statepoint(s, at) {
        return refused(12, 0);
    }
    if !extent::extent_right(first, long, frame.sp, size) {
        return refused(16, 0);
    }
    let p = statepoint::pairs_of(s, at);
    let old = tables::is_old(s);
    if too_many(old, p.count, most) {
        return refused(17, 0);
    }
    outline_pairs(s, at, p.start, p.count, size as usize, frame, old, most)
}

// 10, 15 and what follows, of an accepted section.
pub fn outline_found(
    s: &[u8],
    found: Found,
    long: usize,
    first: u64,
    frame: Cursor,
    most: usize,
) -> Outline
    requires { Accepted s.now × (found ≡ first_of (sought s.now frame.function frame.address)) × (image_right first long ≡ true) × (most ≤ pairs_most) }
    ensures { (olds news : List ℕ) → Outlines (restore s.now olds news first (limited most)) long frame
        (only (sought s.now frame.function frame.address) (plan_entry (restore s.now olds news first (limited most)) long frame)) result }
{
    if found.number != 0 {
        return refused(10, 0);
    }
    if found.sharing != 1 {
        return refused(15, 0);
    }
    let size = tables::stack_size(s, found.function);
    outline_record(s, found.first, size, long, first, frame, most)
}
