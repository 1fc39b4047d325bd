// A whole thread over a linked section, after the search over all maps: all frames move, with their registers, each by its own map, or none does.
// No entry point: it requires that the maps are right, of version 3, and the frames' records are found.
#![tactic(auto)]

ghost use Rattle.std.specs.Prelude.{◌≡◌, true, ◌/◌, ◌≤◌, length};
ghost use Rattle.moves.specs.Limits.{pairs_most};
ghost use Rattle.relocate.specs.Restore.{restore};
ghost use Rattle.thread.specs.Thread.{frame_numbers, list_right, frames_from, thread_of};
ghost use Rattle.linked_moves.specs.Thread.{allowed_new};
ghost use Rattle.linked_moves.specs.Code.{maps_in, LookedIn, ReadyIn, FramedOver, ThreadsOver};

use linked_frames::frames;
use linked_moves::SITES_LENGTH;
use moves::Move;
use moves_table::table;
use relocate::{Machine, Settings};
use relocate_frame::{extent, moving};
use thread::FRAMES_MOST;
use thread_search::list;
use thread_search::search::HITS_LENGTH;

// The frames of a right list: all are judged, then their extents are compared, then all are moved.
fn move_frames(
    s: &[u8],
    image: &mut [u8],
    registers: &mut [u64],
    first: u64,
    olds: &[u64],
    news: &[u64],
    machine: Machine,
    list: &[u64],
    count: usize,
    keys: &[u64; FRAMES_MOST],
    hits: &[usize; HITS_LENGTH],
    sites: &[usize; SITES_LENGTH],
    settings: Settings,
) -> Move
    requires { ReadyIn (restore s.now olds.now news.now first settings) (maps_in s.now) machine (length image.old) (length registers.old) list.now count keys.now hits.now sites.now }
    ensures { FramedOver (restore s.now olds.now news.now first settings) (maps_in s.now) image.old (frames_from (thread_of machine list.now registers.old) count 0) registers.old result image.new registers.new }
{
    let judged = frames::judge(
        s, image, registers, first, olds, news, machine, list, count, keys, hits, sites, settings,
    );
    if judged.number != 0 {
        return judged;
    }
    let shared = linked_extents::first_shared(
        machine, s, list, registers, count, keys, hits, sites,
    );
    if shared < count {
        return moving::refused(26, shared);
    }
    frames::move_all(
        s, image, registers, first, olds, news, machine, list, count, keys, hits, sites, settings,
    );
    judged
}

// 13, 14, 25 and what follows.
fn of_allowed(
    s: &[u8],
    image: &mut [u8],
    registers: &mut [u64],
    first: u64,
    olds: &[u64],
    news: &[u64],
    machine: Machine,
    list: &[u64],
    count: usize,
    keys: &[u64; FRAMES_MOST],
    hits: &[usize; HITS_LENGTH],
    sites: &[usize; SITES_LENGTH],
    settings: Settings,
) -> Move
    requires { LookedIn s.now (maps_in s.now) list.now count keys.now hits.now sites.now × (list_right list.now registers.old ≡ true → count ≡ length list.now / frame_numbers)
        × (allowed_new (restore s.now olds.now news.now first settings) machine ≡ true) × (settings.most ≤ pairs_most) }
    ensures { ThreadsOver (restore s.now olds.now news.now first settings) (maps_in s.now) image.old (thread_of machine list.now registers.old) result image.new registers.new }
{
    if !extent::image_right(first, image.len()) {
        return moving::refused(13, 0);
    }
    if !table::table_right(olds, news) {
        return moving::refused(14, 0);
    }
    if !list::list_right(list, registers) {
        return moving::refused(25, 0);
    }
    move_frames(
        s, image, registers, first, olds, news, machine, list, count, keys, hits, sites, settings,
    )
}

// 33 and what follows, of maps of version 3 in which the frames' records are found.
pub fn of_maps(
    s: &[u8],
    image: &mut [u8],
    registers: &mut [u64],
    first: u64,
    olds: &[u64],
    news: &[u64],
    machine: Machine,
    list: &[u64],
    count: usize,
    keys: &[u64; FRAMES_MOST],
    hits: &[usize; HITS_LENGTH],
    sites: &[usize; SITES_LENGTH],
    settings: Settings,
) -> Move
    requires { LookedIn s.now (maps_in s.now) list.now count keys.now hits.now sites.now × (list_right list.now registers.old ≡ true → count ≡ length list.now / frame_numbers) × (settings.most ≤ pairs_most) }
    ensures { ThreadsOver (restore s.now olds.now news.now first settings) (maps_in s.now) image.old (thread_of machine list.now registers.old) result image.new registers.new }
{
    if !relocate_frame::allowed(false, machine, settings) {
        return moving::refused(33, 0);
    }
    of_allowed(
        s, image, registers, first, olds, news, machine, list, count, keys, hits, sites, settings,
    )
}
