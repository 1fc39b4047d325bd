// The check of a trace, one step after another.
// Only `measure` is an entry point: the others require a place inside the trace.
ghost use Rattle.std.specs.Prelude.{◌≡◌, ◌&&◌, ◌+◌, ◌≤◌, length};
ghost use Rattle.listing.specs.Listing as spec;
ghost use Rattle.replay.specs.Layout.{frame_item_size};
ghost use Rattle.replay.specs.Trace.{frame_stands, answer_stands};
ghost use Rattle.replay_trace.specs.Shapes.{Shapes, ended};

use crate::Broken;
use replay::{ANSWER_SIZE, FRAME_SIZE, STEP_SIZE};

const FRAME_KIND: u8 = 1;

const ANSWER_KIND: u8 = 2;

const END_KIND: u8 = 3;

// AArch64, the machine with the greatest number.
const LAST_MACHINE: u8 = 1;

// Whether a whole item of a kind stands at a place.
fn stands(t: &[u8], kind: u8, size: usize, at: usize) -> bool
    requires { (at ≤ length t.now) × (1 ≤ size) }
    ensures { result ≡ spec.stands kind size t.now at }
{
    size <= t.len() - at && t[at] == kind
}

// Whether a frame item stands there, with a machine that is known.
fn frame_stands(t: &[u8], at: usize) -> bool
    requires { at ≤ length t.now }
    ensures { result ≡ frame_stands t.now at }
{
    stands(t, FRAME_KIND, FRAME_SIZE, at) && t[at + 1] <= LAST_MACHINE
}

// Whether a frame item stands there, and its answer after it.
fn step_stands(t: &[u8], at: usize) -> bool
    requires { at ≤ length t.now }
    ensures { result ≡ (frame_stands t.now at && answer_stands t.now (at + frame_item_size)) }
{
    frame_stands(t, at) && stands(t, ANSWER_KIND, ANSWER_SIZE, at + FRAME_SIZE)
}

// What stands after n steps, at `at`, where no step stands: the end and nothing after it, or the first bad item.
fn finish(t: &[u8], n: usize, at: usize) -> Result<usize, Broken>
    requires { at ≤ length t.now }
    ensures { result ≡ ended t.now n at }
{
    if frame_stands(t, at) {
        return Err(Broken {
            place: at + FRAME_SIZE,
        });
    }
    if !stands(t, END_KIND, 1, at) {
        return Err(Broken { place: at });
    }
    if at + 1 != t.len() {
        return Err(Broken { place: at + 1 });
    }
    Ok(n)
}

// Where the trace is broken, by its first bad item, or how many steps it has.
pub fn measure(t: &[u8]) -> Result<usize, Broken>
    ensures { Shapes t.now result }
{
    let most = t.len() / STEP_SIZE;
    let n = (0..most)
        .find(|&n| !step_stands(t, STEP_SIZE * n))
        .unwrap_or(most);
    finish(t, n, STEP_SIZE * n)
}
