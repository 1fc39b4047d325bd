// The frames of a part of a trace, one after another, after the search for their records: each is moved on the image that the last one left, with
// the registers of its own item.
// No entry point: it requires that 1 to 9 have passed and the frames' records are found.
ghost use Rattle.std.specs.Prelude.{◌≡◌, cond, ◌&&◌, ◌+◌, ◌*◌, ◌≤◌, ◌<◌, length};
ghost use Rattle.stackmap.specs.Verdict.{need};
ghost use Rattle.relocate.specs.Restore.{restore, same_machine};
ghost use Rattle.relocate.specs.Relocation.{answer, moved};
ghost use Rattle.replay.specs.Layout.{step_size};
ghost use Rattle.replay.specs.Trace.{frame_at};
ghost use Rattle.replay.specs.Code.{frame_number, Ready, Done};
ghost use Rattle.replay.specs.Code as spec;

use moves::Move;
use relocate::{Frame, Machine, REGISTERS, Settings};
use relocate_frame::moving;
use replay::{Outcome, STEP_SIZE};
use replay_trace::steps;
use stackmap_tables::tables;
use thread::FRAMES_MOST;
use thread_search::search;
use thread_search::search::HITS_LENGTH;

// 33, or the refusal 13 or 14 of all other frames, or 0.
fn early(old: bool, machine: Machine, settings: Settings, fault: u8) -> u8
    ensures { result ≡ need (cond old settings.version1 settings.version3 && same_machine machine settings.machine) 33 fault }
{
    if relocate_frame::allowed(old, machine, settings) {
        return fault;
    }
    33
}

// 10 and what follows, of the frame number k, for which 33, 13 and 14 have passed.
fn move_found(
    s: &[u8],
    image: &mut [u8],
    first: u64,
    olds: &[u64],
    news: &[u64],
    t: &[u8],
    all: usize,
    i: usize,
    n: usize,
    keys: &[u64; FRAMES_MOST],
    hits: &[usize; HITS_LENGTH],
    k: usize,
    frame: Frame,
    settings: Settings,
    fault: u8,
) -> Move
    requires { Ready (restore s.now olds.now news.now first settings) (length image.old) t.now all i n keys.now hits.now fault × (i ≤ k) × (k < i + n)
        × (frame ≡ frame_at t.now (step_size * k)) × (spec.early (restore s.now olds.now news.now first settings) (length image.old) frame.machine ≡ 0) }
    ensures { (result ≡ answer (restore s.now olds.now news.now first settings) image.old (frame_number t.now k))
        × (image.new ≡ moved (restore s.now olds.now news.now first settings) image.old (frame_number t.now k)) }
{
    let found = search::of_frame(s, keys, n, hits, frame);
    let mut registers = [0u64; REGISTERS];
    steps::read_registers(t, STEP_SIZE * k, &mut registers);
    let at = relocate_frame::cursor(frame, &registers);
    moving::move_found(
        s,
        found,
        image,
        &mut registers,
        first,
        olds,
        news,
        at,
        true,
        settings.most,
    )
}

// The move of the frame number k.
fn move_frame(
    s: &[u8],
    image: &mut [u8],
    first: u64,
    olds: &[u64],
    news: &[u64],
    t: &[u8],
    all: usize,
    i: usize,
    n: usize,
    keys: &[u64; FRAMES_MOST],
    hits: &[usize; HITS_LENGTH],
    k: usize,
    settings: Settings,
    fault: u8,
) -> Move
    requires { Ready (restore s.now olds.now news.now first settings) (length image.old) t.now all i n keys.now hits.now fault × (i ≤ k) × (k < i + n) }
    ensures { (result ≡ answer (restore s.now olds.now news.now first settings) image.old (frame_number t.now k))
        × (image.new ≡ moved (restore s.now olds.now news.now first settings) image.old (frame_number t.now k)) }
{
    let frame = steps::frame_at(t, STEP_SIZE * k);
    let machine = frame.machine;
    let number = early(tables::is_old(s), machine, settings, fault);
    if number != 0 {
        return moving::refused(number, 0);
    }
    move_found(
        s, image, first, olds, news, t, all, i, n, keys, hits, k, frame, settings, fault,
    )
}

// One step: the frame is moved, and its answer is compared with the one that was recorded.
fn replay_step(
    s: &[u8],
    image: &mut [u8],
    first: u64,
    olds: &[u64],
    news: &[u64],
    t: &[u8],
    all: usize,
    i: usize,
    n: usize,
    keys: &[u64; FRAMES_MOST],
    hits: &[usize; HITS_LENGTH],
    k: usize,
    settings: Settings,
    fault: u8,
    kept: Outcome,
) -> Outcome
    requires { Ready (restore s.now olds.now news.now first settings) (length image.old) t.now all i n keys.now hits.now fault × (i ≤ k) × (k < i + n) }
    ensures { Done (restore s.now olds.now news.now first settings) t.now all k kept image.old (k + 1) result image.new }
{
    let m = move_frame(
        s, image, first, olds, news, t, all, i, n, keys, hits, k, settings, fault,
    );
    replay_compare::note(t, all, k, m, kept)
}

// The steps of the part, n from number i on.
pub fn replay_steps(
    s: &[u8],
    image: &mut [u8],
    first: u64,
    olds: &[u64],
    news: &[u64],
    t: &[u8],
    all: usize,
    i: usize,
    n: usize,
    keys: &[u64; FRAMES_MOST],
    hits: &[usize; HITS_LENGTH],
    settings: Settings,
    fault: u8,
    kept: Outcome,
) -> Outcome
    requires { Ready (restore s.now olds.now news.now first settings) (length image.old) t.now all i n keys.now hits.now fault }
    ensures { Done (restore s.now olds.now news.now first settings) t.now all i kept image.old (i + n) result image.new }
{
    let mut known = kept;
    for k in i..i + n {
        known = replay_step(
            s, image, first, olds, news, t, all, i, n, keys, hits, k, settings, fault, known,
        );
    }
    known
}
