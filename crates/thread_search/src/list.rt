// The list of frames, two numbers a frame, address and function number, and beside it the list of registers, 32 numbers a frame.
// `frame_at` is no entry point: it requires a position in the list.
ghost use Rattle.std.specs.Prelude.{◌≡◌, true, ◌+◌, ◌*◌, ◌/◌, ◌≤◌, length};
ghost use Rattle.thread.specs.Thread.{frames_most, frame_numbers, list_right, frame_at};

use relocate::{Frame, Machine, REGISTERS};
use thread::{FRAME_NUMBERS, FRAMES_MOST};

// The test of refusal 25.
pub fn list_right(frames: &[u64], registers: &[u64]) -> bool
    ensures { result ≡ list_right frames.now registers.now }
{
    if frames.len() % FRAME_NUMBERS != 0 {
        return false;
    }
    let held = frames.len() / FRAME_NUMBERS;
    if held > FRAMES_MOST {
        return false;
    }
    registers.len() == REGISTERS * held
}

// How many frames a right list has; 0 of another.
pub fn count(frames: &[u64], registers: &[u64]) -> usize
    ensures { (frame_numbers * result ≤ length frames.now) × (result ≤ frames_most) × (list_right frames.now registers.now ≡ true → result ≡ length frames.now / frame_numbers) }
{
    if list_right(frames, registers) {
        return frames.len() / FRAME_NUMBERS;
    }
    0
}

// The frame at a position.
pub fn frame_at(machine: Machine, frames: &[u64], k: usize) -> Frame
    requires { frame_numbers * k + frame_numbers ≤ length frames.now }
    ensures { result ≡ frame_at machine frames.now k }
{
    let p = FRAME_NUMBERS * k;
    Frame {
        address: frames[p],
        function: frames[p + 1],
        machine,
    }
}
