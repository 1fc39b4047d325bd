// The slot that is asked for, as a number of the arrays: counted from the stack pointer, or a register. An address below the stack pointer or
// 2^32 and more bytes past it, and a register from 32 on, are no slot that a frame lists.
ghost use Rattle.std.specs.Prelude.{◌≡◌};
ghost use Rattle.moves.specs.Slots.{memory, register};
ghost use Rattle.moves.specs.Arrays.{as_option};
ghost use Rattle.explain.specs.Explain.{slot_of};
ghost use Rattle.explain_pointers.specs.Told.{number_of};

use explain::Asked;
use moves::{POINTER_SIZE, REGISTERS_FROM};
use relocate::REGISTERS;

fn in_memory(address: u64, sp: u64) -> Option<usize>
    ensures { as_option result ≡ number_of sp (memory address) }
{
    match address.checked_sub(sp) {
        Some(past) if past < REGISTERS_FROM as u64 => Some(past as usize),
        _ => None,
    }
}

fn in_register(number: u64, sp: u64) -> Option<usize>
    ensures { as_option result ≡ number_of sp (register number) }
{
    if number < REGISTERS as u64 {
        return Some(REGISTERS_FROM + POINTER_SIZE * number as usize);
    }
    None
}

pub fn number_of(asked: Asked, sp: u64) -> Option<usize>
    ensures { as_option result ≡ number_of sp (slot_of asked) }
{
    match asked {
        Asked::Address(address) => in_memory(address, sp),
        Asked::Register(number) => in_register(number, sp),
    }
}
