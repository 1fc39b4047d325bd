// A move after the search for its record: what is read of the section, and then the window. Where `write` is false the frame is only judged.
// `most` is the largest pointer count.
// No entry point: it requires what the stages before it have tested.
ghost use Rattle.std.specs.Prelude.{◌≡◌, true, ◌≤◌, length};
ghost use Rattle.stackmap.specs.Check.{Accepted};
ghost use Rattle.questions.specs.Questions.{first_of, sought};
ghost use Rattle.moves.specs.Limits.{pairs_most};
ghost use Rattle.moves.specs.Table.{table_right, look_up};
ghost use Rattle.moves.specs.Settle.{refused_move};
ghost use Rattle.moves.specs.Code.{Follows};
ghost use Rattle.relocate.specs.Limits.{register_count};
ghost use Rattle.relocate.specs.Restore.{restore};
ghost use Rattle.relocate.specs.Plan.{image_right, only};
ghost use Rattle.relocate.specs.Code.{limited, plan_entry};

use moves::Move;
use questions::Found;
use relocate::Cursor;
use relocate_plan::plan;

// A refusal, with count 0.
pub fn refused(number: u8, place: usize) -> Move
    ensures { result ≡ refused_move number place }
{
    Move {
        number,
        place,
        count: 0,
    }
}

// 10, 15 and what follows, of an accepted section.
pub fn move_found(
    s: &[u8],
    found: Found,
    image: &mut [u8],
    registers: &mut [u64],
    first: u64,
    olds: &[u64],
    news: &[u64],
    frame: Cursor,
    write: bool,
    most: usize,
) -> Move
    requires { Accepted s.now × (found ≡ first_of (sought s.now frame.function frame.address)) × (image_right first (length image.old) ≡ true) × (table_right olds.now news.now ≡ true)
        × (most ≤ pairs_most) × (length registers.old ≡ register_count) }
    ensures { Follows write result image.new registers.new (look_up olds.now news.now) image.old registers.old (only (sought s.now frame.function frame.address) (plan_entry (restore s.now olds.now news.now first (limited most)) (length image.old) frame)) }
{
    let outline = plan::outline_found(s, found, image.len(), first, frame, most);
    if outline.number != 0 {
        return refused(outline.number, outline.place);
    }
    relocate_window::move_slots(
        s,
        outline.at,
        outline.start,
        outline.count,
        outline.pointers,
        image,
        registers,
        first,
        outline.size,
        olds,
        news,
        frame,
        outline.old,
        write,
        most,
    )
}
