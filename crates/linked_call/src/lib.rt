// A whole thread over a linked section in one call: all frames move, with their registers, each by its own map, or none does.
#![tactic(auto)]

ghost use Rattle.stackmap.specs.Verdict.{verdict};
ghost use Rattle.std.specs.Prelude.{◌≡◌, ◌≤◌};
ghost use Rattle.moves.specs.Limits.{pairs_most};
ghost use Rattle.relocate.specs.Restore.{restore};
ghost use Rattle.thread.specs.Thread.{thread_of};
ghost use Rattle.linked_search.specs.Check.{linked_check};
ghost use Rattle.linked_call.specs.Code.{LinkedThreads};

use linked_moves::SITES_LENGTH;
use moves::Move;
use refusals::Refusal;
use relocate::{Machine, Settings};
use relocate_frame::moving;
use thread::FRAMES_MOST;
use thread_search::search::HITS_LENGTH;
use thread_search::{addresses, list};

// The verdict on a linked section: its maps' refusal, or 27 at the first byte of a map of version 1.
pub fn check(section: &[u8]) -> Result<usize, Refusal>
    ensures { verdict result ≡ linked_check section.now }
{
    let keys = [0u64; FRAMES_MOST];
    let mut hits = [0usize; HITS_LENGTH];
    let mut sites = [0usize; SITES_LENGTH];
    linked_search::find_all(section, &keys, 0, &mut hits, &mut sites)
}

// Relocates the frames of a list as `thread_call::relocate_thread` does, in a section that holds several maps: 10 and 15 count over all maps, and
// all else is as in the frame's own map. A map's refusal stands at its place in the whole; 27 is at the first byte of a map of version 1.
// No entry point: it requires settings that the crates above have read or made.
pub fn relocate_linked(
    section: &[u8],
    image: &mut [u8],
    first: u64,
    olds: &[u64],
    news: &[u64],
    machine: Machine,
    list: &[u64],
    registers: &mut [u64],
    settings: Settings,
) -> Move
    requires { settings.most ≤ pairs_most }
    ensures { LinkedThreads (restore section.now olds.now news.now first settings) image.old (thread_of machine list.now registers.old) result image.new registers.new }
{
    let count = list::count(list, registers);
    let mut keys = [0u64; FRAMES_MOST];
    addresses::gather(list, count, &mut keys);
    let mut hits = [0usize; HITS_LENGTH];
    let mut sites = [0usize; SITES_LENGTH];
    match linked_search::find_all(section, &keys, count, &mut hits, &mut sites) {
        Err(Refusal(cause, place)) => moving::refused(cause.number(), place),
        Ok(_) => linked_thread::of_maps(
            section, image, registers, first, olds, news, machine, list, count, &keys, &hits,
            &sites, settings,
        ),
    }
}
