// One location as a constant, as slots one after another in memory, or as a register.
// No entry point: it requires an extent inside the image, which 16 has tested.
ghost use Rattle.std.specs.Prelude.{◌≡◌, ◌≤◌};
ghost use Rattle.moves.specs.Arrays.{as_option};
ghost use Rattle.relocate.specs.Limits.{image_most};
ghost use Rattle.relocate.specs.Statepoint.{size_right, pointers_in, is_memory_slot, is_slot};
ghost use Rattle.relocate.specs.Code.{location_of, zero_said, slot_in, position_in, place_in};

use moves::POINTER_SIZE;
use questions::LocationAnswer;
use relocate::{Cursor, Machine};
// The machine's two pointers, for the callers too.
pub use relocate_registers::{frame_pointer, stack_pointer};
use relocate_registers::{is_frame_or_stack, is_register_slot};
use stackmap::layout;

const KIND_REGISTER: u8 = 1;

const KIND_INDIRECT: u8 = 3;

// Register r as a number of a slot is this and 8 * r (moves/specs/Arrays).
const REGISTERS_FROM: usize = 4294967296;

// The size of one pointer, as a location states it.
const SLOT_SIZE: u16 = 8;

// Pointers of one location.
const LOCATION_MOST: u16 = 256;

// 2^32: what the 32 bits of a negative number have too much.
const EXCESS: u64 = 4294967296;

// Whether a location is a constant equal to 0.
#[tactic(auto, unfolding(relocate::specs::Code::zero_said))]
pub fn is_zero(l: LocationAnswer) -> bool
    ensures { result ≡ zero_said l }
{
    l.constant == 0 && (l.kind == layout::KIND_CONSTANT || l.kind == layout::KIND_CONST_INDEX)
}

// Whether a location of slots may state this size: in version 1 8 or 0, in version 3 8N, N from 1 to 256.
#[tactic(auto, unfolding(relocate::specs::Statepoint::size_right))]
fn size_right(old: bool, size: u16) -> bool
    ensures { result ≡ size_right old size }
{
    if old {
        size == SLOT_SIZE || size == 0
    } else {
        size % SLOT_SIZE == 0 && (1..=LOCATION_MOST).contains(&(size / SLOT_SIZE))
    }
}

// How many pointers a location of this size holds: in version 1 one.
#[tactic(auto, unfolding(relocate::specs::Statepoint::pointers_in))]
pub fn pointers_in(old: bool, size: u16) -> usize
    ensures { (result ≡ pointers_in old size) × (result ≤ 8192) }
{
    if old {
        return 1;
    }
    usize::from(size / SLOT_SIZE)
}

// Whether a location is slots in memory: kind 3, the right size, and the machine's frame or stack pointer.
#[tactic(auto, unfolding(relocate::specs::Statepoint::is_memory_slot))]
fn is_memory_slot(machine: Machine, old: bool, l: LocationAnswer) -> bool
    ensures { result ≡ is_memory_slot machine old (location_of l) }
{
    l.kind == KIND_INDIRECT && size_right(old, l.size) && is_frame_or_stack(machine, l.register)
}

// Whether a location is slots, in memory or a register.
#[tactic(auto, unfolding(relocate::specs::Statepoint::is_slot))]
pub fn is_slot(machine: Machine, old: bool, l: LocationAnswer) -> bool
    ensures { result ≡ is_slot machine old (location_of l) }
{
    is_memory_slot(machine, old, l) || is_register_slot(machine, old, l)
}

// Slots from p bytes after the stack pointer on, in an extent of `size` bytes.
fn place(p: u64, slots: usize, size: usize) -> Option<usize>
    requires { (size ≤ image_most) × (slots ≤ 8192) }
    ensures { as_option result ≡ place_in p slots size }
{
    if p > size as u64 {
        return None;
    }
    let at = p as usize;
    if size - at < POINTER_SIZE * slots {
        return None;
    }
    Some(at)
}

// Slots from register plus offset on, worked out as a whole number without wrapping.
fn position(register: u64, sp: u64, offset: u32, slots: usize, size: usize) -> Option<usize>
    requires { (size ≤ image_most) × (slots ≤ 8192) }
    ensures { as_option result ≡ position_in register sp offset slots size }
{
    if offset < layout::NEGATIVE_FROM {
        let up = u64::from(offset);
        if register < sp {
            let p = up.checked_sub(sp - register)?;
            return place(p, slots, size);
        }
        let gap = register - sp;
        if gap > size as u64 {
            return None;
        }
        return place(gap + up, slots, size);
    }
    let down = EXCESS - u64::from(offset);
    let gap = register.checked_sub(sp)?;
    let p = gap.checked_sub(down)?;
    place(p, slots, size)
}

// Where the first slot of a location is, as a number (moves/specs/Arrays): of a register always; in memory if all of its slots are in the
// frame's extent of `size` bytes.
pub fn slot(frame: Cursor, old: bool, size: usize, l: LocationAnswer) -> Option<usize>
    requires { size ≤ image_most }
    ensures { as_option result ≡ slot_in old frame size (location_of l) }
{
    if l.kind == KIND_REGISTER {
        return Some(REGISTERS_FROM + POINTER_SIZE * usize::from(l.register));
    }
    let machine = frame.machine;
    let slots = pointers_in(old, l.size);
    if l.register == frame_pointer(machine) {
        return position(frame.fp, frame.sp, l.offset, slots, size);
    }
    position(frame.sp, frame.sp, l.offset, slots, size)
}
