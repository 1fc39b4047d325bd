// The slots of a frame, in its window and in its registers, read and written.
// No entry point: it requires slots inside the window and registers that are there, which 18 and 19 have tested.
ghost use Rattle.std.specs.Prelude.{◌≡◌, ℕ, ◌≤◌, ◌<◌, length, get_or};
ghost use Rattle.moves.specs.Limits.{pairs_most};
ghost use Rattle.moves.specs.Slots as spec;
ghost use Rattle.moves.specs.Slots.{state};
ghost use Rattle.moves.specs.Arrays.{slot_of, Placed, Filled, puts};

use moves::{PAIRS_MOST, POINTER_SIZE, REGISTERS_FROM};

// The number in a slot.
pub fn read(window: &[u8], registers: &[u64], slot: usize) -> u64
    requires { Placed (length window.now) (length registers.now) slot }
    ensures { result ≡ spec.read (state window.now registers.now) (slot_of slot) }
{
    if slot < REGISTERS_FROM {
        return wire::u64_at(window, slot);
    }
    let number = (slot - REGISTERS_FROM) / POINTER_SIZE;
    registers[number]
}

// Puts a number into a slot.
fn put(window: &mut [u8], registers: &mut [u64], slot: usize, value: u64)
    requires { Placed (length window.old) (length registers.old) slot }
    ensures { state window.new registers.new ≡ spec.put (state window.old registers.old) (slot_of slot) value }
{
    if slot < REGISTERS_FROM {
        wire::put_u64(window, slot, value);
    } else {
        registers[(slot - REGISTERS_FROM) / POINTER_SIZE] = value;
    }
}

// The numbers in the slots of the pairs that are not null, into `contents`.
pub fn read_all(
    window: &[u8],
    registers: &[u64],
    live: &[u8; PAIRS_MOST],
    slots: &[usize; PAIRS_MOST],
    contents: &mut [u64],
    pairs: usize,
)
    requires { (pairs ≤ pairs_most) × (pairs ≤ length contents.old) × ((k : ℕ) → k < pairs → (get_or live.now k 0 ≡ 0 → ⊥) → Placed (length window.now) (length registers.now) (get_or slots.now k 0)) }
    ensures { Filled (λ k. spec.read (state window.now registers.now) (slot_of (get_or slots.now k 0))) live.now contents.new pairs }
{
    for k in 0..pairs {
        if live[k] != 0 {
            contents[k] = read(window, registers, slots[k]);
        }
    }
}

// Puts `contents` into the derived slots of the pairs that are not null, and nothing else.
pub fn put_all(
    window: &mut [u8],
    registers: &mut [u64],
    live: &[u8; PAIRS_MOST],
    derived: &[usize; PAIRS_MOST],
    contents: &[u64],
    pairs: usize,
)
    requires { (pairs ≤ pairs_most) × (pairs ≤ length contents.now) × ((k : ℕ) → k < pairs → (get_or live.now k 0 ≡ 0 → ⊥) → Placed (length window.old) (length registers.old) (get_or derived.now k 0)) }
    ensures { state window.new registers.new ≡ puts live.now derived.now contents.now pairs 0 (state window.old registers.old) }
{
    for p in 0..pairs {
        if live[p] != 0 {
            put(window, registers, derived[p], contents[p]);
        }
    }
}
