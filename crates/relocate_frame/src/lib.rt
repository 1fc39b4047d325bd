// The move of one frame.
#![tactic(auto)]

ghost use Rattle.std.specs.Prelude.{◌≡◌, true, false, cond, ◌&&◌, ◌≤◌, length};
ghost use Rattle.questions.specs.Kept.{searched, of_section};
ghost use Rattle.moves.specs.Limits.{pairs_most};
ghost use Rattle.relocate.specs.Limits.{register_count};
ghost use Rattle.relocate.specs.Restore.{restore, same_machine};
ghost use Rattle.relocate.specs.Restore as spec;
ghost use Rattle.relocate.specs.Stopped as StoppedSpec;
ghost use Rattle.relocate.specs.Stopped.{stopped, registers_right};
ghost use Rattle.relocate.specs.Code.{Relocates};

use moves::Move;
use moves_table::table;
use questions::Found;
use questions_find::find;
use relocate::{Cursor, Frame, Machine, REGISTERS, Settings};
use relocate_slots::slots;
use stackmap_tables::tables;

pub mod extent;
pub mod moving;

// What a plan reads of a frame.
pub fn cursor(frame: Frame, registers: &[u64]) -> Cursor
    requires { length registers.now ≡ register_count }
    ensures { result ≡ StoppedSpec.cursor (stopped frame registers.now) }
{
    let machine = frame.machine;
    Cursor {
        address: frame.address,
        function: frame.function,
        fp: registers[slots::frame_pointer(machine) as usize],
        sp: registers[slots::stack_pointer(machine) as usize],
        machine,
    }
}

// The test of refusal 25 of a single frame.
pub fn registers_right(registers: &[u64]) -> bool
    ensures { result ≡ registers_right registers.now }
{
    registers.len() == REGISTERS
}

// The test of refusal 33: `old` is true for a section of version 1.
#[tactic(auto, unfolding(relocate::specs::Restore::same_machine))]
pub fn allowed(old: bool, machine: Machine, settings: Settings) -> bool
    ensures { result ≡ (cond old settings.version1 settings.version3 && same_machine machine settings.machine) }
{
    let kept = if old {
        settings.version1
    } else {
        settings.version3
    };
    kept && machine == settings.machine
}

// 13, 14, 25 and what follows, of an accepted section whose version is allowed, as the frame's machine is.
fn of_section(
    section: &[u8],
    found: Found,
    image: &mut [u8],
    first: u64,
    olds: &[u64],
    news: &[u64],
    frame: Frame,
    registers: &mut [u64],
    settings: Settings,
) -> Move
    requires { (found ≡ searched section.now frame.address) × (of_section found ≡ false)
        × (spec.allowed (restore section.now olds.now news.now first settings) frame.machine ≡ true) × (settings.most ≤ pairs_most) }
    ensures { Relocates (restore section.now olds.now news.now first settings) image.old (stopped frame registers.old) result image.new registers.new }
{
    if !extent::image_right(first, image.len()) {
        return moving::refused(13, 0);
    }
    let right = table::table_right(olds, news);
    let lent = registers_right(registers);
    let named = find::named(section, found, frame.function);
    if !right {
        return moving::refused(14, 0);
    }
    if !lent {
        return moving::refused(25, 0);
    }
    let at = cursor(frame, registers);
    moving::move_found(
        section,
        named,
        image,
        registers,
        first,
        olds,
        news,
        at,
        true,
        settings.most,
    )
}

// 33 and what follows, of a frame whose records are searched for in a section that is accepted.
// No entry point: it requires that search, and settings that the crates above have read or made.
pub fn relocate_found(
    section: &[u8],
    found: Found,
    image: &mut [u8],
    first: u64,
    olds: &[u64],
    news: &[u64],
    frame: Frame,
    registers: &mut [u64],
    settings: Settings,
) -> Move
    requires { (found ≡ searched section.now frame.address) × (of_section found ≡ false) × (settings.most ≤ pairs_most) }
    ensures { Relocates (restore section.now olds.now news.now first settings) image.old (stopped frame registers.old) result image.new registers.new }
{
    if !allowed(tables::is_old(section), frame.machine, settings) {
        return moving::refused(33, 0);
    }
    of_section(
        section, found, image, first, olds, news, frame, registers, settings,
    )
}

// Relocates one frame in the stack image that starts at the address `first`, by the move table of old and new starts: a refusal's
// number and place, with the image and the registers as they were; or 0, 0 and the number of pointers, with each derived slot moved.
// No entry point: it requires settings that the crates above have read or made.
pub fn relocate(
    section: &[u8],
    image: &mut [u8],
    first: u64,
    olds: &[u64],
    news: &[u64],
    frame: Frame,
    registers: &mut [u64],
    settings: Settings,
) -> Move
    requires { settings.most ≤ pairs_most }
    ensures { Relocates (restore section.now olds.now news.now first settings) image.old (stopped frame registers.old) result image.new registers.new }
{
    let found = find::records(section, frame.address);
    if find::of_section(found) {
        return moving::refused(found.number, found.place);
    }
    relocate_found(
        section, found, image, first, olds, news, frame, registers, settings,
    )
}
