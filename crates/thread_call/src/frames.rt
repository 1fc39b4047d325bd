// The frames of the list, one after another: all are judged before any is moved.
// No entry point: it requires that 1 to 9, 13, 14 and 25 have passed and the frames' records are found.
ghost use Rattle.std.specs.Prelude.{◌≡◌, ◌<◌, length};
ghost use mathlib.Core.List.{flatten};
ghost use Rattle.moves.specs.Settle.{accepted_move};
ghost use Rattle.relocate.specs.Restore.{restore};
ghost use Rattle.relocate.specs.Relocation.{answer};
ghost use Rattle.relocate.specs.Lists.{final, final_registers};
ghost use Rattle.thread.specs.Thread.{stopped_at, frames_from, judged, pointers_in};
ghost use Rattle.thread.specs.Thread.{thread_of};
ghost use Rattle.thread.specs.Code.{Ready, moved_if, registers_if};

use moves::Move;
use relocate::{Machine, REGISTERS, Settings};
use relocate_frame::moving;
use thread::FRAMES_MOST;
use thread_search::search::HITS_LENGTH;
use thread_search::{list, search};

// The frame at the position k, with its own registers: moved, or only judged.
fn settle_frame(
    s: &[u8],
    image: &mut [u8],
    registers: &mut [u64],
    first: u64,
    olds: &[u64],
    news: &[u64],
    machine: Machine,
    frames: &[u64],
    count: usize,
    keys: &[u64; FRAMES_MOST],
    hits: &[usize; HITS_LENGTH],
    k: usize,
    write: bool,
    settings: Settings,
) -> Move
    requires { Ready (restore s.now olds.now news.now first settings) machine (length image.old) (length registers.old) frames.now count keys.now hits.now × (k < count) }
    ensures { (result ≡ answer (restore s.now olds.now news.now first settings) image.old (stopped_at (thread_of machine frames.now registers.old) k))
        × (image.new ≡ moved_if write (restore s.now olds.now news.now first settings) image.old (thread_of machine frames.now registers.old) k)
        × (registers.new ≡ registers_if write (restore s.now olds.now news.now first settings) image.old (thread_of machine frames.now registers.old) k) }
{
    let frame = list::frame_at(machine, frames, k);
    let found = search::of_frame(s, keys, count, hits, frame);
    let p = REGISTERS * k;
    let at = relocate_frame::cursor(frame, &registers[p..p + REGISTERS]);
    moving::move_found(
        s,
        found,
        image,
        &mut registers[p..p + REGISTERS],
        first,
        olds,
        news,
        at,
        write,
        settings.most,
    )
}

// The first refused frame's number with its position, or the sum of the pointers.
pub fn judge(
    s: &[u8],
    image: &mut [u8],
    registers: &mut [u64],
    first: u64,
    olds: &[u64],
    news: &[u64],
    machine: Machine,
    frames: &[u64],
    count: usize,
    keys: &[u64; FRAMES_MOST],
    hits: &[usize; HITS_LENGTH],
    settings: Settings,
) -> Move
    requires { Ready (restore s.now olds.now news.now first settings) machine (length image.old) (length registers.old) frames.now count keys.now hits.now }
    ensures { (result ≡ judged (restore s.now olds.now news.now first settings) image.old 0 (frames_from (thread_of machine frames.now registers.old) count 0) (accepted_move (pointers_in (restore s.now olds.now news.now first settings) image.old (frames_from (thread_of machine frames.now registers.old) count 0))))
        × (image.new ≡ image.old) × (registers.new ≡ registers.old) }
{
    let mut sum: usize = 0;
    for k in 0..count {
        let m = settle_frame(
            s, image, registers, first, olds, news, machine, frames, count, keys, hits, k, false,
            settings,
        );
        if m.number != 0 {
            return moving::refused(m.number, k);
        }
        sum += m.count;
    }
    Move {
        number: 0,
        place: 0,
        count: sum,
    }
}

// Moves one frame after another, in the list's order, each in its own registers.
pub fn move_all(
    s: &[u8],
    image: &mut [u8],
    registers: &mut [u64],
    first: u64,
    olds: &[u64],
    news: &[u64],
    machine: Machine,
    frames: &[u64],
    count: usize,
    keys: &[u64; FRAMES_MOST],
    hits: &[usize; HITS_LENGTH],
    settings: Settings,
)
    requires { Ready (restore s.now olds.now news.now first settings) machine (length image.old) (length registers.old) frames.now count keys.now hits.now }
    ensures { (image.new ≡ final (restore s.now olds.now news.now first settings) (frames_from (thread_of machine frames.now registers.old) count 0) image.old)
        × (registers.new ≡ flatten (final_registers (restore s.now olds.now news.now first settings) (frames_from (thread_of machine frames.now registers.old) count 0) image.old)) }
{
    for next in 0..count {
        settle_frame(
            s, image, registers, first, olds, news, machine, frames, count, keys, hits, next, true,
            settings,
        );
    }
}
