// Whether stretches of memory, given one after another, share no byte: their starts are put in order, each with its stretch's number,
// and each that is not empty has to end before the next begins. It says so, or it says nothing.
// No entry point: it requires the arrays that it has filled itself.
#![tactic(auto)]

ghost use Rattle.std.specs.Prelude.{◌≡◌, true, ℕ, ◌+◌, ◌*◌, ◌^◌, ◌≤◌, ◌<◌, length};
ghost use Rattle.thread.specs.Thread.{frames_most};
ghost use Rattle.thread_stretches.specs.Listed.{Listed, Clear, AllApart};

use thread::FRAMES_MOST;

// A start and a number for each stretch.
pub const PAIRS_LENGTH: usize = 2 * FRAMES_MOST;

// Puts the stretch number k after `kept` others: a pair of its start and its number, unless it is empty, and its end.
fn put_in(pairs: &mut [u64], ends: &mut [u64], kept: usize, k: usize, start: u64, end: u64) -> usize
    requires { (kept ≤ k) × (2 * k + 1 < length pairs.old) × (k < length ends.old) }
    ensures { (result ≤ k + 1) × ((from to : ℕ → ℕ) → Listed from to k kept pairs.old ends.old
        → start ≡ from k → end ≡ to k → Listed from to (k + 1) result pairs.new ends.new) }
{
    ends[k] = end;
    pairs[2 * kept] = start;
    pairs[2 * kept + 1] = k as u64;
    kept + usize::from(start < end)
}

// The same in arrays that have room for each frame's.
pub fn put(
    pairs: &mut [u64; PAIRS_LENGTH],
    ends: &mut [u64; FRAMES_MOST],
    kept: usize,
    k: usize,
    start: u64,
    end: u64,
) -> usize
    requires { (kept ≤ k) × (k < frames_most) }
    ensures { (result ≤ k + 1) × ((from to : ℕ → ℕ) → Listed from to k kept pairs.old ends.old
        → start ≡ from k → end ≡ to k → Listed from to (k + 1) result pairs.new ends.new) }
{
    put_in(pairs, ends, kept, k, start, end)
}

// Whether of each pair but the last the stretch ends before the next one starts.
fn neighbours(pairs: &[u64], n: usize, ends: &[u64]) -> bool
    requires { 2 * n ≤ length pairs.now }
    ensures { result ≡ true → Clear pairs.now n ends.now }
{
    for next in 1..n {
        let k = pairs[2 * next - 1] as usize;
        if k >= ends.len() || ends[k] > pairs[2 * next] {
            return false;
        }
    }
    true
}

// Whether no two of the stretches share a byte. The pairs are put in order.
fn apart_in(pairs: &mut [u64], n: usize, ends: &[u64]) -> bool
    requires { 2 * n ≤ length pairs.old }
    ensures { result ≡ true → (from to : ℕ → ℕ) (k : ℕ) → k < 2 ^ 64
        → Listed from to k n pairs.old ends.now → AllApart from to k }
{
    sorted_shell::sort(pairs, n);
    neighbours(pairs, n, ends)
}

// The same of arrays that have room for each frame's.
pub fn all_apart(pairs: &mut [u64; PAIRS_LENGTH], n: usize, ends: &[u64; FRAMES_MOST]) -> bool
    requires { n ≤ frames_most }
    ensures { result ≡ true → (from to : ℕ → ℕ) (k : ℕ) → k < 2 ^ 64
        → Listed from to k n pairs.old ends.now → AllApart from to k }
{
    apart_in(pairs, n, ends)
}
