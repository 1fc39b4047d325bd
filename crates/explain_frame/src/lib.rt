// Why, for all slots of a frame in one call: the answer of the frame's move first, from what is read of the section, the image and the
// registers, and then the rows of its pointers. Nothing but the lent list is written.
#![tactic(auto)]

ghost use Rattle.std.specs.Prelude.{◌≡◌, ◌≤◌};
ghost use Rattle.moves.specs.Limits.{pairs_most};
ghost use Rattle.relocate.specs.Restore.{restore};
ghost use Rattle.relocate.specs.Stopped.{stopped};
ghost use Rattle.explain.specs.Rows.{explain_frame, explain_frame_list};

use explain_rows::ROW_NUMBERS;
use moves::{Move, PAIRS_MOST};
use relocate::{Frame, Settings};
use relocate_frame::moving;

// The rows of all pointers of the frame at the start of the lent list, and how many numbers they are, in one walk of the section; or the refusal
// of the frame's move; or 24 where the list is too short. A refusal leaves the list as it was.
// No entry point: it requires settings that the crates above have read or made.
pub fn explain(
    section: &[u8],
    image: &[u8],
    first: u64,
    olds: &[u64],
    news: &[u64],
    frame: Frame,
    registers: &[u64],
    rows: &mut [u64],
    settings: Settings,
) -> Move
    requires { settings.most ≤ pairs_most }
    ensures { (result ≡ explain_frame (restore section.now olds.now news.now first settings) image.now (stopped frame registers.now) rows.old)
        × (rows.new ≡ explain_frame_list (restore section.now olds.now news.now first settings) image.now (stopped frame registers.now) rows.old) }
{
    let mut live = [0u8; PAIRS_MOST];
    let mut bases = [0usize; PAIRS_MOST];
    let mut derived = [0usize; PAIRS_MOST];
    let outline = relocate_judge::judge(
        section,
        image,
        first,
        olds,
        news,
        frame,
        registers,
        &mut live,
        &mut bases,
        &mut derived,
        settings,
    );
    if outline.number != 0 {
        return moving::refused(outline.number, outline.place);
    }
    let numbers = ROW_NUMBERS * outline.pointers;
    if rows.len() < numbers {
        return moving::refused(24, 0);
    }
    let at = relocate_frame::cursor(frame, registers);
    explain_outline::put_frame(
        section, outline, image, registers, first, &live, &bases, &derived, olds, news, at, rows,
        0, 0,
    );
    Move {
        number: 0,
        place: 0,
        count: numbers,
    }
}
