// One frame by the bytes of its map: judged, or moved. The map is an accepted section.
// No entry point: it requires what the stages before it have tested.
ghost use Rattle.std.specs.Prelude.{◌≡◌, true, ◌≤◌, length};
ghost use Rattle.stackmap.specs.Check.{Accepted};
ghost use Rattle.questions.specs.Questions.{first_of};
ghost use Rattle.moves.specs.Limits.{pairs_most};
ghost use Rattle.moves.specs.Table.{table_right};
ghost use Rattle.relocate.specs.Limits.{register_count};
ghost use Rattle.relocate.specs.Restore.{restore, allowed};
ghost use Rattle.relocate.specs.Stopped.{stopped};
ghost use Rattle.relocate.specs.Plan.{image_right, records_of};
ghost use Rattle.relocate.specs.Relocation.{answer};
ghost use Rattle.relocate.specs.Code.{Relocates};

use moves::{Move, PAIRS_MOST};
use questions::Found;
use relocate::{Frame, Settings};
use relocate_frame::moving;

// What the frame's plain move would answer, over shared slices.
pub fn judge(
    map: &[u8],
    found: Found,
    image: &[u8],
    registers: &[u64],
    first: u64,
    olds: &[u64],
    news: &[u64],
    frame: Frame,
    settings: Settings,
) -> Move
    requires { Accepted map.now × (found ≡ first_of (records_of map.now frame)) × (allowed (restore map.now olds.now news.now first settings) frame.machine ≡ true)
        × (image_right first (length image.now) ≡ true) × (table_right olds.now news.now ≡ true) × (settings.most ≤ pairs_most) × (length registers.now ≡ register_count) }
    ensures { result ≡ answer (restore map.now olds.now news.now first settings) image.now (stopped frame registers.now) }
{
    let at = relocate_frame::cursor(frame, registers);
    let mut live = [0u8; PAIRS_MOST];
    let mut bases = [0usize; PAIRS_MOST];
    let mut derived = [0usize; PAIRS_MOST];
    let outline = relocate_judge::judge_found(
        map,
        found,
        image,
        registers,
        first,
        olds,
        news,
        at,
        &mut live,
        &mut bases,
        &mut derived,
        settings.most,
    );
    if outline.number != 0 {
        return moving::refused(outline.number, outline.place);
    }
    Move {
        number: 0,
        place: 0,
        count: outline.pointers,
    }
}

// The frame's plain move.
pub fn relocate(
    map: &[u8],
    found: Found,
    image: &mut [u8],
    registers: &mut [u64],
    first: u64,
    olds: &[u64],
    news: &[u64],
    frame: Frame,
    settings: Settings,
) -> Move
    requires { Accepted map.now × (found ≡ first_of (records_of map.now frame)) × (allowed (restore map.now olds.now news.now first settings) frame.machine ≡ true)
        × (image_right first (length image.old) ≡ true) × (table_right olds.now news.now ≡ true) × (settings.most ≤ pairs_most) × (length registers.old ≡ register_count) }
    ensures { Relocates (restore map.now olds.now news.now first settings) image.old (stopped frame registers.old) result image.new registers.new }
{
    let at = relocate_frame::cursor(frame, registers);
    moving::move_found(
        map,
        found,
        image,
        registers,
        first,
        olds,
        news,
        at,
        true,
        settings.most,
    )
}
