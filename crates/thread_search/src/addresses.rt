// The addresses of a list's frames, in order, with equal ones side by side.
// No entry point: it requires a list that holds so many frames, which `list::count` ensures.
ghost use Rattle.std.specs.Prelude.{◌≡◌, ℕ, ◌*◌, ◌≤◌, ◌<◌, length, get_or};
ghost use Rattle.thread.specs.Thread.{frames_most, frame_numbers};
ghost use Rattle.thread.specs.Code.{Gathered};

use thread::{FRAME_NUMBERS, FRAMES_MOST};

// Copies the addresses of the first `count` frames.
fn copy(frames: &[u64], count: usize, keys: &mut [u64])
    requires { (frame_numbers * count ≤ length frames.now) × (count ≤ length keys.old) }
    ensures { (j : ℕ) → j < count → get_or keys.new j 0 ≡ get_or frames.now (frame_numbers * j) 0 }
{
    for k in 0..count {
        keys[k] = frames[FRAME_NUMBERS * k];
    }
}

// Puts the addresses of the first `count` frames in order.
pub fn gather(frames: &[u64], count: usize, keys: &mut [u64; FRAMES_MOST])
    requires { (frame_numbers * count ≤ length frames.now) × (count ≤ frames_most) }
    ensures { Gathered frames.now keys.new count }
{
    copy(frames, count, keys);
    sorted_numbers::sort(keys, count);
}
