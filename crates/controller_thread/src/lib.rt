// The controller's move of a whole thread, by the base's promises.
#![tactic(auto)]

ghost use Rattle.std.specs.Prelude.{◌≤◌};
ghost use Rattle.moves.specs.Limits.{pairs_most};
ghost use Rattle.relocate.specs.Restore.{restore};
ghost use Rattle.thread.specs.Thread.{thread_of};
ghost use Rattle.controller.specs.Kept.{ControlsThread};

use moves::Move;
use refusals::Refusal;
use relocate::{Machine, Settings};
use relocate_frame::moving;

// Relocates the frames of a list as `thread_call::relocate_thread` does, and between 1 to 9 and 33: 50. What keeps the profile has at most 64
// records, so that they are walked over a second time.
// No entry point: it requires settings that the crates above have read or made.
pub fn relocate_thread(
    section: &[u8],
    image: &mut [u8],
    first: u64,
    olds: &[u64],
    news: &[u64],
    machine: Machine,
    list: &[u64],
    registers: &mut [u64],
    settings: Settings,
) -> Move
    requires { settings.most ≤ pairs_most }
    ensures { ControlsThread (restore section.now olds.now news.now first settings) image.old (thread_of machine list.now registers.old) result image.new registers.new }
{
    match controller_profile::check(section, machine) {
        Err(Refusal(cause, place)) => moving::refused(cause.number(), place),
        Ok(_) => thread_call::relocate_thread(
            section, image, first, olds, news, machine, list, registers, settings,
        ),
    }
}
