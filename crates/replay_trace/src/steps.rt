// What the items of a trace hold.
// No entry point: each function requires that the item is inside, which `items::measure` ensures.
ghost use Rattle.std.specs.Prelude.{◌≡◌, ◌+◌, ◌≤◌, length};
ghost use Rattle.relocate.specs.Limits.{register_count};
ghost use Rattle.replay.specs.Layout.{frame_item_size, answer_item_size};
ghost use Rattle.replay.specs.Trace.{frame_at, registers_at, recorded_at};

use relocate::Frame;
use replay::Recorded;

// The frame of the item at a place, without its registers.
pub fn frame_at(t: &[u8], at: usize) -> Frame
    requires { at + frame_item_size ≤ length t.now }
    ensures { result ≡ frame_at t.now at }
{
    Frame {
        address: wire::u64_at(t, at + 2),
        function: wire::u64_at(t, at + 10),
        machine: editions_settings::machine_of(u64::from(t[at + 1])),
    }
}

// The registers of the frame item at a place.
pub fn read_registers(t: &[u8], at: usize, registers: &mut [u64])
    requires { (at + frame_item_size ≤ length t.now) × (length registers.old ≡ register_count) }
    ensures { registers.new ≡ registers_at t.now at }
{
    for (k, register) in registers.iter_mut().enumerate() {
        *register = wire::u64_at(t, at + 18 + 8 * k);
    }
}

// The answer of the item at a place.
pub fn recorded_at(t: &[u8], at: usize) -> Recorded
    requires { at + answer_item_size ≤ length t.now }
    ensures { result ≡ recorded_at t.now at }
{
    Recorded {
        number: t[at + 1],
        value: wire::u64_at(t, at + 2) as usize,
    }
}
