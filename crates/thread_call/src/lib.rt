// A whole thread in one call: all frames move, with their registers, or none does.
#![tactic(auto)]

ghost use Rattle.std.specs.Prelude.{◌≡◌, true, ◌/◌, ◌≤◌, length};
ghost use Rattle.moves.specs.Limits.{pairs_most};
ghost use Rattle.relocate.specs.Restore.{restore, allowed};
ghost use Rattle.thread.specs.Thread.{frame_numbers, list_right, frames_from};
ghost use Rattle.thread.specs.Thread.{thread_of};
ghost use Rattle.thread.specs.Code.{Looked, Ready, Threads, Framed};

use moves::Move;
use moves_table::table;
use refusals::Refusal;
use relocate::{Machine, Settings};
use relocate_frame::{extent, moving};
use stackmap_tables::tables;
use thread::FRAMES_MOST;
use thread_search::{addresses, list, search};

mod frames;

// The frames of a right list: all are judged, then their extents are compared, then all are moved.
fn move_frames(
    s: &[u8],
    image: &mut [u8],
    registers: &mut [u64],
    first: u64,
    olds: &[u64],
    news: &[u64],
    machine: Machine,
    list: &[u64],
    count: usize,
    keys: &[u64; FRAMES_MOST],
    hits: &[usize; search::HITS_LENGTH],
    settings: Settings,
) -> Move
    requires { Ready (restore s.now olds.now news.now first settings) machine (length image.old) (length registers.old) list.now count keys.now hits.now }
    ensures { Framed (restore s.now olds.now news.now first settings) image.old (frames_from (thread_of machine list.now registers.old) count 0) registers.old result image.new registers.new }
{
    let judged = frames::judge(
        s, image, registers, first, olds, news, machine, list, count, keys, hits, settings,
    );
    if judged.number != 0 {
        return judged;
    }
    let shared = thread_extents::first_shared(machine, s, list, registers, count, keys, hits);
    if shared < count {
        return moving::refused(26, shared);
    }
    frames::move_all(
        s, image, registers, first, olds, news, machine, list, count, keys, hits, settings,
    );
    judged
}

// 13, 14, 25 and what follows, of an accepted section in which the frames' records are found.
fn of_section(
    s: &[u8],
    image: &mut [u8],
    registers: &mut [u64],
    first: u64,
    olds: &[u64],
    news: &[u64],
    machine: Machine,
    list: &[u64],
    count: usize,
    keys: &[u64; FRAMES_MOST],
    hits: &[usize; search::HITS_LENGTH],
    settings: Settings,
) -> Move
    requires { Looked s.now list.now count keys.now hits.now × (list_right list.now registers.old ≡ true → count ≡ length list.now / frame_numbers)
        × (allowed (restore s.now olds.now news.now first settings) machine ≡ true) × (settings.most ≤ pairs_most) }
    ensures { Threads (restore s.now olds.now news.now first settings) image.old (thread_of machine list.now registers.old) result image.new registers.new }
{
    if extent::image_right(first, image.len()) {
        if table::table_right(olds, news) {
            if list::list_right(list, registers) {
                return move_frames(
                    s, image, registers, first, olds, news, machine, list, count, keys, hits,
                    settings,
                );
            }
            return moving::refused(25, 0);
        }
        return moving::refused(14, 0);
    }
    moving::refused(13, 0)
}

// 33, and what follows, of an accepted section in which the frames' records are found.
fn of_checked(
    s: &[u8],
    image: &mut [u8],
    registers: &mut [u64],
    first: u64,
    olds: &[u64],
    news: &[u64],
    machine: Machine,
    list: &[u64],
    count: usize,
    keys: &[u64; FRAMES_MOST],
    hits: &[usize; search::HITS_LENGTH],
    settings: Settings,
) -> Move
    requires { Looked s.now list.now count keys.now hits.now × (list_right list.now registers.old ≡ true → count ≡ length list.now / frame_numbers) × (settings.most ≤ pairs_most) }
    ensures { Threads (restore s.now olds.now news.now first settings) image.old (thread_of machine list.now registers.old) result image.new registers.new }
{
    if relocate_frame::allowed(tables::is_old(s), machine, settings) {
        return of_section(
            s, image, registers, first, olds, news, machine, list, count, keys, hits, settings,
        );
    }
    moving::refused(33, 0)
}

// Relocates the frames of a list, two numbers each, of this machine, in the stack image that starts at the address `first` and in the list of
// their registers, 32 numbers each: a refusal's number and place, with image and registers as they were; or 0, 0 and the sum of the pointers,
// with each derived slot moved.
// No entry point: it requires settings that the crates above have read or made.
pub fn relocate_thread(
    section: &[u8],
    image: &mut [u8],
    first: u64,
    olds: &[u64],
    news: &[u64],
    machine: Machine,
    list: &[u64],
    registers: &mut [u64],
    settings: Settings,
) -> Move
    requires { settings.most ≤ pairs_most }
    ensures { Threads (restore section.now olds.now news.now first settings) image.old (thread_of machine list.now registers.old) result image.new registers.new }
{
    let count = list::count(list, registers);
    let mut keys = [0u64; FRAMES_MOST];
    addresses::gather(list, count, &mut keys);
    let mut hits = [0usize; search::HITS_LENGTH];
    match search::find_all(section, &keys, count, &mut hits) {
        Err(Refusal(cause, place)) => moving::refused(cause.number(), place),
        Ok(_) => of_checked(
            section, image, registers, first, olds, news, machine, list, count, &keys, &hits,
            settings,
        ),
    }
}
