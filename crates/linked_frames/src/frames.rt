// The frames of the list, one after another: all are judged before any is moved.
// No entry point: it requires that 1 to 9, 27, 33, 13, 14 and 25 have passed and the frames' records are found.
ghost use Rattle.std.specs.Prelude.{◌≡◌, ◌<◌, length};
ghost use mathlib.Core.List.{flatten};
ghost use Rattle.moves.specs.Settle.{accepted_move};
ghost use Rattle.relocate.specs.Restore.{restore};
ghost use Rattle.thread.specs.Thread.{stopped_at, frames_from, thread_of};
ghost use Rattle.linked_moves.specs.Thread.{answer_over, moved_over, judged_over, pointers_over, final_over, final_registers_over};
ghost use Rattle.linked_moves.specs.Code.{maps_in, ReadyIn, registers_after};

use crate::map;
use linked_moves::SITES_LENGTH;
use moves::Move;
use relocate::{Machine, REGISTERS, Settings};
use relocate_frame::moving;
use thread::FRAMES_MOST;
use thread_search::list;
use thread_search::search::HITS_LENGTH;

// The frame at the position k, with its own registers: 10, 15, or what its own map says.
fn judge_frame(
    s: &[u8],
    image: &[u8],
    registers: &[u64],
    first: u64,
    olds: &[u64],
    news: &[u64],
    machine: Machine,
    frames: &[u64],
    count: usize,
    keys: &[u64; FRAMES_MOST],
    hits: &[usize; HITS_LENGTH],
    sites: &[usize; SITES_LENGTH],
    k: usize,
    settings: Settings,
) -> Move
    requires { ReadyIn (restore s.now olds.now news.now first settings) (maps_in s.now) machine (length image.now) (length registers.now) frames.now count keys.now hits.now sites.now × (k < count) }
    ensures { result ≡ answer_over (restore s.now olds.now news.now first settings) (maps_in s.now) image.now (stopped_at (thread_of machine frames.now registers.now) k) }
{
    let site = crate::site_of(s, frames, count, keys, hits, sites, k);
    if site.number != 0 {
        return moving::refused(site.number, 0);
    }
    let frame = list::frame_at(machine, frames, k);
    let p = REGISTERS * k;
    map::judge(
        site.bytes(s),
        site.found,
        image,
        &registers[p..p + REGISTERS],
        first,
        olds,
        news,
        frame,
        settings,
    )
}

// The first refused frame's number with its position, or the sum of the pointers.
pub fn judge(
    s: &[u8],
    image: &[u8],
    registers: &[u64],
    first: u64,
    olds: &[u64],
    news: &[u64],
    machine: Machine,
    frames: &[u64],
    count: usize,
    keys: &[u64; FRAMES_MOST],
    hits: &[usize; HITS_LENGTH],
    sites: &[usize; SITES_LENGTH],
    settings: Settings,
) -> Move
    requires { ReadyIn (restore s.now olds.now news.now first settings) (maps_in s.now) machine (length image.now) (length registers.now) frames.now count keys.now hits.now sites.now }
    ensures { result ≡ judged_over (restore s.now olds.now news.now first settings) (maps_in s.now) image.now 0 (frames_from (thread_of machine frames.now registers.now) count 0)
        (accepted_move (pointers_over (restore s.now olds.now news.now first settings) (maps_in s.now) image.now (frames_from (thread_of machine frames.now registers.now) count 0))) }
{
    let mut sum: usize = 0;
    for k in 0..count {
        let m = judge_frame(
            s, image, registers, first, olds, news, machine, frames, count, keys, hits, sites, k,
            settings,
        );
        if m.number != 0 {
            return moving::refused(m.number, k);
        }
        sum += m.count;
    }
    Move {
        number: 0,
        place: 0,
        count: sum,
    }
}

// Moves the frame at the position k in its own registers.
fn move_frame(
    s: &[u8],
    image: &mut [u8],
    registers: &mut [u64],
    first: u64,
    olds: &[u64],
    news: &[u64],
    machine: Machine,
    frames: &[u64],
    count: usize,
    keys: &[u64; FRAMES_MOST],
    hits: &[usize; HITS_LENGTH],
    sites: &[usize; SITES_LENGTH],
    k: usize,
    settings: Settings,
)
    requires { ReadyIn (restore s.now olds.now news.now first settings) (maps_in s.now) machine (length image.old) (length registers.old) frames.now count keys.now hits.now sites.now × (k < count) }
    ensures { (image.new ≡ moved_over (restore s.now olds.now news.now first settings) (maps_in s.now) image.old (stopped_at (thread_of machine frames.now registers.old) k))
        × (registers.new ≡ registers_after (restore s.now olds.now news.now first settings) (maps_in s.now) image.old (thread_of machine frames.now registers.old) k) }
{
    let site = crate::site_of(s, frames, count, keys, hits, sites, k);
    if site.number != 0 {
        return;
    }
    let frame = list::frame_at(machine, frames, k);
    let p = REGISTERS * k;
    map::relocate(
        site.bytes(s),
        site.found,
        image,
        &mut registers[p..p + REGISTERS],
        first,
        olds,
        news,
        frame,
        settings,
    );
}

// Moves one frame after another, in the list's order.
pub fn move_all(
    s: &[u8],
    image: &mut [u8],
    registers: &mut [u64],
    first: u64,
    olds: &[u64],
    news: &[u64],
    machine: Machine,
    frames: &[u64],
    count: usize,
    keys: &[u64; FRAMES_MOST],
    hits: &[usize; HITS_LENGTH],
    sites: &[usize; SITES_LENGTH],
    settings: Settings,
)
    requires { ReadyIn (restore s.now olds.now news.now first settings) (maps_in s.now) machine (length image.old) (length registers.old) frames.now count keys.now hits.now sites.now }
    ensures { (image.new ≡ final_over (restore s.now olds.now news.now first settings) (maps_in s.now) (frames_from (thread_of machine frames.now registers.old) count 0) image.old)
        × (registers.new ≡ flatten (final_registers_over (restore s.now olds.now news.now first settings) (maps_in s.now) (frames_from (thread_of machine frames.now registers.old) count 0) image.old)) }
{
    for next in 0..count {
        move_frame(
            s, image, registers, first, olds, news, machine, frames, count, keys, hits, sites,
            next, settings,
        );
    }
}
