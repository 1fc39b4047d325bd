// Refusal 26: the first frame whose extent shares a byte with an earlier one's. All are put in order and compared with their neighbours
// first; where two share a byte, the extents that are apart are kept in order, so that a new one is compared with its two neighbours.
// No entry point: it requires that every frame was accepted, so that each has an extent.
#![tactic(auto)]

ghost use Rattle.std.specs.Prelude.{◌≡◌, true, ℕ, cond, [], map, ◌*◌, ◌≤◌, ◌<◌, ltb, length};
ghost use Rattle.moves.specs.declared.Move as MoveType;
ghost use Rattle.moves.specs.Settle.{refused_move};
ghost use Rattle.relocate.specs.Limits.{register_count};
ghost use Rattle.relocate.specs.Stopped as StoppedSpec;
ghost use Rattle.relocate.specs.Relocation as RelocationSpec;
ghost use Rattle.relocate.specs.Relocation.{extent_of};
ghost use Rattle.thread.specs.Thread as ThreadSpec;
ghost use Rattle.thread.specs.Thread.{stopped_at, frames_from, apart, frames_most, thread_of};
ghost use Rattle.thread.specs.Code.{Looked, EachSited};
ghost use Rattle.thread_stretches.specs.Listed.{AllApart};
ghost use Rattle.thread_extents.specs.Extents.{GivesExtents, GivesFrames};

use relocate::{Machine, REGISTERS};
use stackmap_tables::tables;
use thread::FRAMES_MOST;
use thread_search::search::HITS_LENGTH;
use thread_search::{list, search};
use thread_stretches::PAIRS_LENGTH;

// Bytes of memory, from the start up to, not including, the end.
#[derive(Clone, Copy)]
pub struct Stretch {
    pub start: u64,
    pub end: u64,
}

// The extent of the frame at the position k: it begins at the stack pointer in the frame's own registers.
fn extent(
    machine: Machine,
    s: &[u8],
    frames: &[u64],
    registers: &[u64],
    count: usize,
    keys: &[u64; FRAMES_MOST],
    hits: &[usize; HITS_LENGTH],
    k: usize,
) -> Stretch
    requires { Looked s.now frames.now count keys.now hits.now × (length registers.now ≡ register_count * count) × EachSited s.now (thread_of machine frames.now registers.now) count × (k < count) }
    ensures { (result.start ≡ (extent_of s.now (stopped_at (thread_of machine frames.now registers.now) k)).start) × (result.end ≡ (extent_of s.now (stopped_at (thread_of machine frames.now registers.now) k)).end) }
{
    let frame = list::frame_at(machine, frames, k);
    let found = search::of_frame(s, keys, count, hits, frame);
    let size = tables::stack_size(s, found.function);
    let p = REGISTERS * k;
    let at = relocate_frame::cursor(frame, &registers[p..p + REGISTERS]);
    Stretch {
        start: at.sp,
        end: at.sp + size,
    }
}

// Whether no two extents share a byte, by a look at neighbours in order: false says nothing.
fn all_apart<F: Fn(usize) -> Stretch>(count: usize, extent: &F) -> bool
    requires few { count ≤ frames_most }
    requires callable { (k : ℕ) → k < count → F.pre extent.now k }
    ensures { result ≡ true → (from to : ℕ → ℕ) → GivesExtents (F.post extent.now) from to count → AllApart from to count }
{
    let mut pairs = [0u64; PAIRS_LENGTH];
    let mut ends = [0u64; FRAMES_MOST];
    let mut kept: usize = 0;
    for k in 0..count {
        let x = extent(k);
        kept = thread_stretches::put(&mut pairs, &mut ends, kept, k, x.start, x.end);
    }
    thread_stretches::all_apart(&mut pairs, kept, &ends)
}

// The position of the first frame whose extent shares a byte with an earlier one's; `count` if there is none.
fn first_of<F: Fn(usize) -> Stretch>(count: usize, extent: &F) -> usize
    requires few { count ≤ frames_most }
    requires callable { (k : ℕ) → k < count → F.pre extent.now k }
    ensures { (result ≤ count) × ((e : StoppedSpec.Stopped → RelocationSpec.Extent) (t : ThreadSpec.Thread)
        → GivesFrames (F.post extent.now) e t count
        → (m : MoveType.Move) → apart 0 [] (map e (frames_from t count 0)) m ≡ cond (ltb result count) (refused_move 26 result) m) }
{
    let mut starts = [0u64; FRAMES_MOST];
    let mut ends = [0u64; FRAMES_MOST];
    let mut kept: usize = 0;
    for k in 0..count {
        let Stretch { start, end } = extent(k);
        if thread_disjoint::shares(&starts, &ends, kept, start, end) {
            return k;
        }
        if start < end {
            thread_disjoint::keep(&mut starts, &mut ends, kept, start, end);
            kept += 1;
        }
    }
    count
}

// The same, whatever says what the extent of the frame at a position is: the look at neighbours first, so that only a refused call is looked
// at frame by frame.
pub fn first_shared_by<F: Fn(usize) -> Stretch>(count: usize, extent: F) -> usize
    requires few { count ≤ frames_most }
    requires callable { (k : ℕ) → k < count → F.pre extent k }
    ensures { (result ≤ count) × ((e : StoppedSpec.Stopped → RelocationSpec.Extent) (t : ThreadSpec.Thread)
        → GivesFrames (F.post extent) e t count
        → (m : MoveType.Move) → apart 0 [] (map e (frames_from t count 0)) m ≡ cond (ltb result count) (refused_move 26 result) m) }
{
    if all_apart(count, &extent) {
        return count;
    }
    first_of(count, &extent)
}

// The same of the frames of a thread, by the one section.
pub fn first_shared(
    machine: Machine,
    s: &[u8],
    frames: &[u64],
    registers: &[u64],
    count: usize,
    keys: &[u64; FRAMES_MOST],
    hits: &[usize; HITS_LENGTH],
) -> usize
    requires { Looked s.now frames.now count keys.now hits.now × (length registers.now ≡ register_count * count) × EachSited s.now (thread_of machine frames.now registers.now) count }
    ensures { (result ≤ count) × ((m : MoveType.Move) → apart 0 [] (map (extent_of s.now) (frames_from (thread_of machine frames.now registers.now) count 0)) m
        ≡ cond (ltb result count) (refused_move 26 result) m) }
{
    first_shared_by(count, |k| {
        extent(machine, s, frames, registers, count, keys, hits, k)
    })
}
