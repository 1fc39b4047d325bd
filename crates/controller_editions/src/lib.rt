// The controller's calls by the edition that they name, with the machine as a number: any number but 0 goes as a machine that the profile
// doesn't take.
#![tactic(auto)]

ghost use Rattle.restores.specs.Restores.{request};
ghost use Rattle.restores.specs.Moves.{numbered};
ghost use Rattle.restores_thread.specs.Threads.{numbered_thread};
ghost use Rattle.controller_editions.specs.Code.{ControlsUnder, ControlsThreadUnder};

use editions::Store;
use editions_settings as by_number;
use moves::Move;
use relocate::Frame;
use relocate_frame::moving;

const UNKNOWN_EDITION: u8 = 31;

// Relocates one frame under an edition of the store: 31 first; then as `controller_frame::relocate` does with the edition's settings.
pub fn relocate(
    store: Store,
    edition: u64,
    section: &[u8],
    image: &mut [u8],
    first: u64,
    olds: &[u64],
    news: &[u64],
    machine: u64,
    address: u64,
    function: u64,
    registers: &mut [u64],
) -> Move
    ensures { ControlsUnder (request store edition section.now olds.now news.now first) image.old (numbered machine address function registers.old) result image.new registers.new }
{
    let named = by_number::named(store, edition);
    if named.number != 0 {
        return moving::refused(UNKNOWN_EDITION, 0);
    }
    let known = by_number::machine_of(machine);
    let frame = Frame {
        machine: known,
        address,
        function,
    };
    let settings = named.settings;
    controller_frame::relocate(
        section, image, first, olds, news, frame, registers, settings,
    )
}

// Relocates the frames of a list under an edition of the store: 31 first; then as `controller_thread::relocate_thread` does with the edition's
// settings.
pub fn relocate_thread(
    store: Store,
    edition: u64,
    section: &[u8],
    image: &mut [u8],
    first: u64,
    olds: &[u64],
    news: &[u64],
    machine: u64,
    list: &[u64],
    registers: &mut [u64],
) -> Move
    ensures { ControlsThreadUnder (request store edition section.now olds.now news.now first) image.old (numbered_thread machine list.now registers.old) result image.new registers.new }
{
    let named = by_number::named(store, edition);
    if named.number != 0 {
        return moving::refused(UNKNOWN_EDITION, 0);
    }
    let known = by_number::machine_of(machine);
    let settings = named.settings;
    controller_thread::relocate_thread(
        section, image, first, olds, news, known, list, registers, settings,
    )
}
