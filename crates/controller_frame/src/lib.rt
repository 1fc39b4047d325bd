// The controller's move of one frame, by the base's promises.
#![tactic(auto)]

ghost use Rattle.std.specs.Prelude.{◌≤◌};
ghost use Rattle.moves.specs.Limits.{pairs_most};
ghost use Rattle.relocate.specs.Restore.{restore};
ghost use Rattle.relocate.specs.Stopped.{stopped};
ghost use Rattle.controller.specs.Kept.{Controls};

use moves::Move;
use questions_find::find;
use refusals::Refusal;
use relocate::{Frame, Settings};
use relocate_frame::moving;

// Relocates one frame as `relocate_frame::relocate` does, and between 1 to 9 and 33: 50. The section is searched and checked once.
// No entry point: it requires settings that the crates above have read or made.
pub fn relocate(
    section: &[u8],
    image: &mut [u8],
    first: u64,
    olds: &[u64],
    news: &[u64],
    frame: Frame,
    registers: &mut [u64],
    settings: Settings,
) -> Move
    requires { settings.most ≤ pairs_most }
    ensures { Controls (restore section.now olds.now news.now first settings) image.old (stopped frame registers.old) result image.new registers.new }
{
    let found = find::records(section, frame.address);
    if find::of_section(found) {
        return moving::refused(found.number, found.place);
    }
    let machine = frame.machine;
    match controller_profile::of_accepted(section, machine) {
        Err(Refusal(cause, place)) => moving::refused(cause.number(), place),
        Ok(_) => relocate_frame::relocate_found(
            section, found, image, first, olds, news, frame, registers, settings,
        ),
    }
}
