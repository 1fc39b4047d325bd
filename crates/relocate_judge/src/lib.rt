// The judgement of one frame: what its move would answer, from what is read of the section, the image and the registers; and where it is
// accepted, its outline and the arrays that hold its pointers. Nothing but these arrays is written.
#![tactic(auto)]

ghost use Rattle.std.specs.Prelude.{◌≡◌, true, false, ◌≤◌, length};
ghost use Rattle.stackmap.specs.Check.{Accepted};
ghost use Rattle.questions.specs.Kept.{searched, of_section};
ghost use Rattle.questions.specs.Questions.{first_of, sought};
ghost use Rattle.moves.specs.Limits.{pairs_most};
ghost use Rattle.moves.specs.Table.{table_right};
ghost use Rattle.relocate.specs.declared.Frame as FrameType;
ghost use Rattle.relocate.specs.declared.Settings as SettingsType;
ghost use Rattle.relocate.specs.Limits.{register_count};
ghost use Rattle.relocate.specs.Restore.{restore};
ghost use Rattle.relocate.specs.Restore as spec;
ghost use Rattle.relocate.specs.Stopped.{stopped};
ghost use Rattle.relocate.specs.Stopped as StoppedSpec;
ghost use Rattle.relocate.specs.Plan as PlanSpec;
ghost use Rattle.relocate.specs.Plan.{image_right, only};
ghost use Rattle.relocate.specs.Code.{limited, plan_entry};
ghost use Rattle.relocate_plan.specs.Outlined.{Stands};
ghost use Rattle.relocate_judge.specs.Judged.{Leads, Judged};

use moves::PAIRS_MOST;
use moves_table::table;
use questions::Found;
use questions_find::find;
use relocate::{Cursor, Frame, Settings};
use relocate_frame::extent;
use relocate_pairs::fill;
use relocate_plan::{Outline, plan};
use stackmap_tables::tables;

// 19, 20 and 21, of a frame whose outline is no refusal.
fn of_outline(
    s: &[u8],
    outline: Outline,
    image: &[u8],
    registers: &[u64],
    first: u64,
    olds: &[u64],
    news: &[u64],
    frame: Cursor,
    live: &mut [u8; PAIRS_MOST],
    bases: &mut [usize; PAIRS_MOST],
    derived: &mut [usize; PAIRS_MOST],
) -> Outline
    requires { Stands s.now first (length image.now) frame outline × (outline.number ≡ 0) × (length registers.now ≡ register_count) × (table_right olds.now news.now ≡ true)
        × (image_right first (length image.now) ≡ true) }
    ensures { (g : FrameType.Frame) (settings : SettingsType.Settings)
        → Leads (restore s.now olds.now news.now first settings) image.now (stopped g registers.now) frame outline
        → Judged (restore s.now olds.now news.now first settings) image.now (stopped g registers.now) frame result live.new bases.new derived.new }
{
    let out = fill::fill(
        live,
        bases,
        derived,
        outline.old,
        s,
        outline.at,
        outline.start,
        outline.count,
        frame,
        outline.size,
    );
    if out < outline.count {
        return plan::refused(19, out);
    }
    let off = (frame.sp - first) as usize;
    let mut values = [0u64; PAIRS_MOST];
    let m = moves_window::judge_window(
        image,
        registers,
        off,
        off + outline.size,
        live,
        bases,
        derived,
        &mut values,
        outline.pointers,
        olds,
        news,
    );
    let answer = relocate_window::at_pair(
        m,
        outline.old,
        s,
        outline.at,
        outline.start,
        outline.count,
    );
    if answer.number != 0 {
        return plan::refused(answer.number, answer.place);
    }
    outline
}

// 10, 15 and what follows, of an accepted section. `most` is the largest pointer count.
// No entry point: it requires what the stages before it have tested.
pub fn judge_found(
    s: &[u8],
    found: Found,
    image: &[u8],
    registers: &[u64],
    first: u64,
    olds: &[u64],
    news: &[u64],
    frame: Cursor,
    live: &mut [u8; PAIRS_MOST],
    bases: &mut [usize; PAIRS_MOST],
    derived: &mut [usize; PAIRS_MOST],
    most: usize,
) -> Outline
    requires { Accepted s.now × (found ≡ first_of (sought s.now frame.function frame.address)) × (image_right first (length image.now) ≡ true) × (table_right olds.now news.now ≡ true)
        × (most ≤ pairs_most) × (length registers.now ≡ register_count) }
    ensures { (g : FrameType.Frame) (settings : SettingsType.Settings) → frame ≡ StoppedSpec.cursor (stopped g registers.now)
        → PlanSpec.plan (restore s.now olds.now news.now first settings) (length image.now) (stopped g registers.now)
        ≡ only (sought s.now frame.function frame.address) (plan_entry (restore s.now olds.now news.now first (limited most)) (length image.now) frame)
        → Judged (restore s.now olds.now news.now first settings) image.now (stopped g registers.now) frame result live.new bases.new derived.new }
{
    let outline = plan::outline_found(s, found, image.len(), first, frame, most);
    if outline.number != 0 {
        return outline;
    }
    of_outline(
        s, outline, image, registers, first, olds, news, frame, live, bases, derived,
    )
}

// 13, 14, 25 and what follows, of an accepted section whose version is allowed, as the frame's machine is.
// Kept: relocate_frame makes the same three tests, since each crate's edits exchange their order in its own.
fn of_section(
    section: &[u8],
    found: Found,
    image: &[u8],
    first: u64,
    olds: &[u64],
    news: &[u64],
    frame: Frame,
    registers: &[u64],
    live: &mut [u8; PAIRS_MOST],
    bases: &mut [usize; PAIRS_MOST],
    derived: &mut [usize; PAIRS_MOST],
    settings: Settings,
) -> Outline
    requires { (found ≡ searched section.now frame.address) × (of_section found ≡ false)
        × (spec.allowed (restore section.now olds.now news.now first settings) frame.machine ≡ true) × (settings.most ≤ pairs_most) }
    ensures { Judged (restore section.now olds.now news.now first settings) image.now (stopped frame registers.now)
        (StoppedSpec.cursor (stopped frame registers.now)) result live.new bases.new derived.new }
{
    if !extent::image_right(first, image.len()) {
        return plan::refused(13, 0);
    }
    if !table::table_right(olds, news) {
        return plan::refused(14, 0);
    }
    if !relocate_frame::registers_right(registers) {
        return plan::refused(25, 0);
    }
    let named = find::named(section, found, frame.function);
    let at = relocate_frame::cursor(frame, registers);
    judge_found(
        section,
        named,
        image,
        registers,
        first,
        olds,
        news,
        at,
        live,
        bases,
        derived,
        settings.most,
    )
}

// What `relocate_frame::relocate` with the same arguments answers where it refuses; and else the frame's outline, with the arrays that hold its
// pointers. It walks the section once.
// No entry point: it requires settings that the crates above have read or made.
pub fn judge(
    section: &[u8],
    image: &[u8],
    first: u64,
    olds: &[u64],
    news: &[u64],
    frame: Frame,
    registers: &[u64],
    live: &mut [u8; PAIRS_MOST],
    bases: &mut [usize; PAIRS_MOST],
    derived: &mut [usize; PAIRS_MOST],
    settings: Settings,
) -> Outline
    requires { settings.most ≤ pairs_most }
    ensures { Judged (restore section.now olds.now news.now first settings) image.now (stopped frame registers.now)
        (StoppedSpec.cursor (stopped frame registers.now)) result live.new bases.new derived.new }
{
    let found = find::records(section, frame.address);
    if find::of_section(found) {
        return plan::refused(found.number, found.place);
    }
    if !relocate_frame::allowed(tables::is_old(section), frame.machine, settings) {
        return plan::refused(33, 0);
    }
    of_section(
        section, found, image, first, olds, news, frame, registers, live, bases, derived, settings,
    )
}
