// A quick look at a pair of version 3: whether both its locations are one slot in memory each, at the machine's frame or stack pointer. Nearly
// every pair is. It says that a pair is so, or nothing; the exact way above answers then.
// No entry point: it requires a record that stands there.
#![tactic(auto)]

ghost use Rattle.std.specs.Prelude.{◌≡◌, true, false, ◌+◌, ◌*◌, ◌≤◌, ◌<◌, length, drop};
ghost use Rattle.stackmap.specs.Section.{is_old, read_location, num_locations};
ghost use Rattle.relocate.specs.Limits.{frame_pointer, stack_pointer};
ghost use Rattle.relocate.specs.Code.{record_of, RecordInside, pair_from};
ghost use Rattle.relocate_glance.specs.Plain.{slot_word, OneSlot, Plain};

use relocate::Machine;
use stackmap::layout;
use stackmap_tables::tables;

// The first eight bytes of a location that is one slot in memory, by its register: kind 3, a zero byte, the size 8, the register, two zero bytes.
const AT_RBP: u64 = 25770328067;

const AT_RSP: u64 = 30065295363;

const AT_X29: u64 = 124554575875;

const AT_SP: u64 = 133144510467;

// Those with the machine's frame pointer.
fn at_frame_pointer(machine: Machine) -> u64
    ensures { result ≡ slot_word (frame_pointer machine) }
{
    match machine {
        Machine::Amd64 => AT_RBP,
        Machine::Aarch64 => AT_X29,
    }
}

// Those with the machine's stack pointer.
fn at_stack_pointer(machine: Machine) -> u64
    ensures { result ≡ slot_word (stack_pointer machine) }
{
    match machine {
        Machine::Amd64 => AT_RSP,
        Machine::Aarch64 => AT_SP,
    }
}

// Whether the location at a place begins with one of the two.
fn is_slot(machine: Machine, s: &[u8], at: usize) -> bool
    requires { at + 8 ≤ length s.now }
    ensures { result ≡ true → OneSlot machine (read_location false s.now at) }
{
    let w = wire::u64_at(s, at);
    w == at_frame_pointer(machine) || w == at_stack_pointer(machine)
}

// Whether the two locations of the pair whose base is location j are so.
fn are_slots(machine: Machine, s: &[u8], at: usize, j: usize) -> bool
    requires { RecordInside s.now at × (is_old s.now ≡ false) × (j + 1 < num_locations (drop at s.now)) }
    ensures { result ≡ true → Plain machine (pair_from (record_of s.now at) j) }
{
    let base = at + layout::RECORD_HEAD_SIZE + layout::LOCATION_SIZE * j;
    is_slot(machine, s, base) && is_slot(machine, s, base + layout::LOCATION_SIZE)
}

// The same of a section of either version: it says nothing of version 1.
pub fn plain(machine: Machine, s: &[u8], at: usize, j: usize) -> bool
    requires { RecordInside s.now at × (j + 1 < num_locations (drop at s.now)) }
    ensures { result ≡ true → Plain machine (pair_from (record_of s.now at) j) }
{
    !tables::is_old(s) && are_slots(machine, s, at, j)
}
