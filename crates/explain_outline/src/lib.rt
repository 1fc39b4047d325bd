// The rows of an accepted frame, by its outline and the arrays that hold its pointers.
// No entry point: it requires arrays that hold the pointers, a table that has passed 14, and room in the list.
#![tactic(auto)]

ghost use Rattle.std.specs.Prelude.{◌≡◌, true, ◌+◌, ◌*◌, ◌≤◌, length};
ghost use Rattle.std.proofs.lemmas.List.Edits.{sets};
ghost use Rattle.moves.specs.Table.{table_right};
ghost use Rattle.moves.specs.Arrays.{AllPlaced};
ghost use Rattle.relocate.specs.declared.Frame as FrameType;
ghost use Rattle.relocate.specs.declared.Settings as SettingsType;
ghost use Rattle.relocate.specs.Limits.{register_count};
ghost use Rattle.relocate.specs.Restore.{restore};
ghost use Rattle.relocate.specs.Stopped.{stopped};
ghost use Rattle.relocate.specs.Plan.{image_right};
ghost use Rattle.relocate_plan.specs.Outlined.{Stands};
ghost use Rattle.relocate_judge.specs.Judged.{Held};
ghost use Rattle.explain.specs.Rows.{row_numbers, rows_of};

use explain_rows::put_rows;
use moves::PAIRS_MOST;
use relocate::Cursor;
use relocate_plan::Outline;

// The rows of an accepted frame, by its outline and the arrays that hold its pointers, from the place `to` on.
pub fn put_frame(
    s: &[u8],
    outline: Outline,
    image: &[u8],
    registers: &[u64],
    first: u64,
    live: &[u8; PAIRS_MOST],
    bases: &[usize; PAIRS_MOST],
    derived: &[usize; PAIRS_MOST],
    olds: &[u64],
    news: &[u64],
    frame: Cursor,
    rows: &mut [u64],
    to: usize,
    position: usize,
)
    requires { Stands s.now first (length image.now) frame outline × (length registers.now ≡ register_count) × (image_right first (length image.now) ≡ true)
        × (table_right olds.now news.now ≡ true) × AllPlaced outline.size register_count outline.pointers live.now bases.now derived.now
        × (to + row_numbers * outline.pointers ≤ length rows.old) }
    ensures { (g : FrameType.Frame) (settings : SettingsType.Settings)
        → Held (restore s.now olds.now news.now first settings) image.now (stopped g registers.now) frame outline live.now bases.now derived.now
        → rows.new ≡ sets rows.old to (rows_of (restore s.now olds.now news.now first settings) image.now (stopped g registers.now) position) }
{
    let off = (frame.sp - first) as usize;
    let end = off + outline.size;
    put_rows(
        s,
        outline.at,
        outline.start,
        outline.count,
        outline.old,
        &image[off..end],
        registers,
        live,
        bases,
        derived,
        outline.pointers,
        olds,
        news,
        frame,
        rows,
        to,
        position,
    );
}
