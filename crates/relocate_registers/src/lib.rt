// The registers of a machine: its frame pointer and its stack pointer, and the registers that are slots.
#![tactic(auto)]

ghost use Rattle.std.specs.Prelude.{◌≡◌, ◌&&◌, ◌||◌, eqb};
ghost use Rattle.relocate.specs.Limits.{frame_pointer, stack_pointer, general_registers};
ghost use Rattle.relocate.specs.Statepoint.{is_frame_or_stack, is_register_slot};
ghost use Rattle.relocate.specs.Code.{location_of};

use questions::LocationAnswer;
use relocate::Machine;

// Frame pointer and stack pointer by their DWARF numbers: RBP and RSP on AMD64, x29 and sp on AArch64.
const RBP: u16 = 6;

const RSP: u16 = 7;

const X29: u16 = 29;

const SP: u16 = 31;

// The registers that hold one pointer each are those below these numbers.
const AMD64_REGISTERS: u16 = 16;

const AARCH64_REGISTERS: u16 = 32;

const KIND_REGISTER: u8 = 1;

// The size of one pointer, as a location states it.
const SLOT_SIZE: u16 = 8;

// Frame pointer and stack pointer by their DWARF numbers.
pub fn frame_pointer(machine: Machine) -> u16
    ensures { result ≡ frame_pointer machine }
{
    match machine {
        Machine::Amd64 => RBP,
        Machine::Aarch64 => X29,
    }
}

pub fn stack_pointer(machine: Machine) -> u16
    ensures { result ≡ stack_pointer machine }
{
    match machine {
        Machine::Amd64 => RSP,
        Machine::Aarch64 => SP,
    }
}

fn general_registers(machine: Machine) -> u16
    ensures { result ≡ general_registers machine }
{
    match machine {
        Machine::Amd64 => AMD64_REGISTERS,
        Machine::Aarch64 => AARCH64_REGISTERS,
    }
}

// Whether a register is the machine's frame pointer or stack pointer.
#[tactic(auto, unfolding(relocate::specs::Statepoint::is_frame_or_stack))]
pub fn is_frame_or_stack(machine: Machine, register: u16) -> bool
    ensures { result ≡ is_frame_or_stack machine register }
{
    register == frame_pointer(machine) || register == stack_pointer(machine)
}

// Whether a register may state this size: 8, and in version 1 also 0.
fn register_size(old: bool, bytes: u16) -> bool
    ensures { result ≡ (eqb bytes 8 || (old && eqb bytes 0)) }
{
    bytes == SLOT_SIZE || old && bytes == 0
}

// Whether a location is a register that is a slot: kind 1, the size of one pointer, offset 0, and one of the machine's registers but its frame and
// its stack pointer.
#[tactic(auto, unfolding(relocate::specs::Statepoint::is_register_slot))]
pub fn is_register_slot(machine: Machine, old: bool, l: LocationAnswer) -> bool
    ensures { result ≡ is_register_slot machine old (location_of l) }
{
    l.kind == KIND_REGISTER
        && register_size(old, l.size)
        && l.offset == 0
        && l.register < general_registers(machine)
        && !is_frame_or_stack(machine, l.register)
}
