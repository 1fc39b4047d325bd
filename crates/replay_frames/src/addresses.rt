// The addresses of a part of a trace's frames, in order, with equal ones side by side.
// No entry point: it requires a trace that holds these frames.
ghost use Rattle.std.specs.Prelude.{◌≡◌, ℕ, ◌+◌, ◌*◌, ◌≤◌, ◌<◌, length, get_or};
ghost use Rattle.thread.specs.Thread.{frames_most};
ghost use Rattle.replay.specs.Layout.{step_size};
ghost use Rattle.replay.specs.Trace.{frame_at};
ghost use Rattle.replay.specs.Code.{Gathered};

use replay::STEP_SIZE;
use thread::FRAMES_MOST;

// Where the address stands in a frame item.
const ADDRESS_AT: usize = 2;

// Copies the addresses of n frames from number i on.
fn copy(t: &[u8], i: usize, n: usize, keys: &mut [u64])
    requires { (step_size * (i + n) ≤ length t.now) × (n ≤ length keys.old) }
    ensures { (j : ℕ) → j < n → get_or keys.new j 0 ≡ (frame_at t.now (step_size * (i + j))).address }
{
    for k in 0..n {
        keys[k] = wire::u64_at(t, STEP_SIZE * (i + k) + ADDRESS_AT);
    }
}

// Puts the addresses of n frames from number i on in order.
pub fn gather(t: &[u8], i: usize, n: usize, keys: &mut [u64; FRAMES_MOST])
    requires { (step_size * (i + n) ≤ length t.now) × (n ≤ frames_most) }
    ensures { Gathered t.now i keys.new n }
{
    copy(t, i, n, keys);
    sorted_numbers::sort(keys, n);
}
