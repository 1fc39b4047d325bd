// The rows of all frames of an accepted thread, written one frame after another.
// No entry point: it requires frames that are accepted, and room in the list.
#![tactic(auto)]

ghost use Rattle.std.specs.Prelude.{◌≡◌, ◌+◌, ◌*◌, ◌≤◌, ◌<◌, length};
ghost use mathlib.Core.List.{Memᴰ};
ghost use Rattle.std.proofs.lemmas.List.Edits.{sets};
ghost use Rattle.relocate.specs.Restore.{restore};
ghost use Rattle.relocate.specs.Stopped as StoppedSpec;
ghost use Rattle.relocate.specs.Relocation.{answer};
ghost use Rattle.thread.specs.Thread.{stopped_at, frames_from, thread_of, pointers_in};
ghost use Rattle.thread.specs.Code.{Ready};
ghost use Rattle.explain.specs.Rows.{row_numbers, rows_of};
ghost use Rattle.explain_frames.specs.Rows.{thread_rows};

use explain_rows::ROW_NUMBERS;
use moves::PAIRS_MOST;
use relocate::{Machine, REGISTERS, Settings};
use thread::FRAMES_MOST;
use thread_search::list;
use thread_search::search::HITS_LENGTH;

// The rows of the accepted frame at the position k, from the place `to` on; it answers the place after them.
fn put_frame(
    s: &[u8],
    image: &[u8],
    registers: &[u64],
    first: u64,
    olds: &[u64],
    news: &[u64],
    machine: Machine,
    frames: &[u64],
    count: usize,
    keys: &[u64; FRAMES_MOST],
    hits: &[usize; HITS_LENGTH],
    k: usize,
    rows: &mut [u64],
    to: usize,
    settings: Settings,
) -> usize
    requires { Ready (restore s.now olds.now news.now first settings) machine (length image.now) (length registers.now) frames.now count keys.now hits.now × (k < count)
        × ((answer (restore s.now olds.now news.now first settings) image.now (stopped_at (thread_of machine frames.now registers.now) k)).number ≡ 0)
        × (to + row_numbers * (answer (restore s.now olds.now news.now first settings) image.now (stopped_at (thread_of machine frames.now registers.now) k)).count ≤ length rows.old) × (to ≤ 16777216) }
    ensures { (result ≡ to + row_numbers * (answer (restore s.now olds.now news.now first settings) image.now (stopped_at (thread_of machine frames.now registers.now) k)).count)
        × (rows.new ≡ sets rows.old to (rows_of (restore s.now olds.now news.now first settings) image.now (stopped_at (thread_of machine frames.now registers.now) k) k)) }
{
    let mut live = [0u8; PAIRS_MOST];
    let mut bases = [0usize; PAIRS_MOST];
    let mut derived = [0usize; PAIRS_MOST];
    let outline = thread_judge::judge_frame(
        s,
        image,
        registers,
        first,
        olds,
        news,
        machine,
        frames,
        count,
        keys,
        hits,
        k,
        &mut live,
        &mut bases,
        &mut derived,
        settings,
    );
    let frame = list::frame_at(machine, frames, k);
    let p = REGISTERS * k;
    let at = relocate_frame::cursor(frame, &registers[p..p + REGISTERS]);
    explain_outline::put_frame(
        s,
        outline,
        image,
        &registers[p..p + REGISTERS],
        first,
        &live,
        &bases,
        &derived,
        olds,
        news,
        at,
        rows,
        to,
        k,
    );
    to + ROW_NUMBERS * outline.pointers
}

// The rows of all frames of an accepted thread, from the start of the list on.
pub fn put_frames(
    s: &[u8],
    image: &[u8],
    registers: &[u64],
    first: u64,
    olds: &[u64],
    news: &[u64],
    machine: Machine,
    frames: &[u64],
    count: usize,
    keys: &[u64; FRAMES_MOST],
    hits: &[usize; HITS_LENGTH],
    rows: &mut [u64],
    settings: Settings,
)
    requires { Ready (restore s.now olds.now news.now first settings) machine (length image.now) (length registers.now) frames.now count keys.now hits.now
        × ((f : StoppedSpec.Stopped) → Memᴰ f (frames_from (thread_of machine frames.now registers.now) count 0) → (answer (restore s.now olds.now news.now first settings) image.now f).number ≡ 0)
        × (row_numbers * pointers_in (restore s.now olds.now news.now first settings) image.now (frames_from (thread_of machine frames.now registers.now) count 0) ≤ length rows.old) }
    ensures { rows.new ≡ sets rows.old 0 (thread_rows (restore s.now olds.now news.now first settings) image.now 0 (frames_from (thread_of machine frames.now registers.now) count 0)) }
{
    let mut to: usize = 0;
    for k in 0..count {
        to = put_frame(
            s, image, registers, first, olds, news, machine, frames, count, keys, hits, k, rows,
            to, settings,
        );
    }
}
