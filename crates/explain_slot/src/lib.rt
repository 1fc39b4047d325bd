// Why a slot of a frame moves or does not: the answer of the frame's move first, from what is read of the section, the image and the registers,
// and then the slot among the frame's pointers. Nothing that is lent is written.
#![tactic(auto)]

ghost use Rattle.std.specs.Prelude.{◌≡◌, ◌≤◌};
ghost use Rattle.moves.specs.Limits.{pairs_most};
ghost use Rattle.relocate.specs.Restore.{restore};
ghost use Rattle.relocate.specs.Stopped.{stopped};
ghost use Rattle.explain.specs.Explain.{explained, slot_of};

use explain::{Asked, Reason};
use explain_search::among;
use moves::PAIRS_MOST;
use relocate::{Frame, Settings};

// Why a slot of the frame moves or does not, in one walk of the section: what `relocate_frame::relocate` with the same arguments answers where it
// refuses, and else what it does to the slot and why.
// No entry point: it requires settings that the crates above have read or made.
pub fn explain(
    section: &[u8],
    image: &[u8],
    first: u64,
    olds: &[u64],
    news: &[u64],
    frame: Frame,
    registers: &[u64],
    settings: Settings,
    asked: Asked,
) -> Reason
    requires { settings.most ≤ pairs_most }
    ensures { result ≡ explained (restore section.now olds.now news.now first settings) image.now (stopped frame registers.now) (slot_of asked) }
{
    let mut live = [0u8; PAIRS_MOST];
    let mut bases = [0usize; PAIRS_MOST];
    let mut derived = [0usize; PAIRS_MOST];
    let outline = relocate_judge::judge(
        section,
        image,
        first,
        olds,
        news,
        frame,
        registers,
        &mut live,
        &mut bases,
        &mut derived,
        settings,
    );
    if outline.number != 0 {
        return Reason::Refused(outline.number, outline.place);
    }
    let at = relocate_frame::cursor(frame, registers);
    let off = (at.sp - first) as usize;
    let end = off + outline.size;
    among::reason(
        section,
        outline.at,
        outline.start,
        outline.count,
        outline.old,
        &image[off..end],
        registers,
        &live,
        &bases,
        &derived,
        outline.pointers,
        olds,
        news,
        at.sp,
        asked,
    )
}
