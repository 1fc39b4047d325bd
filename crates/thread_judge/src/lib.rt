// The judgement of a whole thread: what its call would answer, over shared slices. Nothing that is lent is written.
// No entry point: it requires that the section is accepted and the frames' records are found.
#![tactic(auto)]

ghost use Rattle.std.specs.Prelude.{◌≡◌, true, ◌/◌, ◌≤◌, ◌<◌, length};
ghost use Rattle.moves.specs.Limits.{pairs_most};
ghost use Rattle.moves.specs.Settle.{accepted_move};
ghost use Rattle.relocate.specs.Restore.{restore, allowed};
ghost use Rattle.relocate.specs.Stopped.{cursor};
ghost use Rattle.relocate_judge.specs.Judged.{Judged};
ghost use Rattle.thread.specs.Thread.{frame_numbers, list_right, stopped_at, frames_from, thread_of, judged, pointers_in, thread_answer};
ghost use Rattle.thread.specs.Code.{Looked, Ready, frames_answer};

use moves::{Move, PAIRS_MOST};
use moves_table::table;
use relocate::{Machine, REGISTERS, Settings};
use relocate_frame::{extent, moving};
use relocate_plan::Outline;
use stackmap_tables::tables;
use thread::FRAMES_MOST;
use thread_search::search::HITS_LENGTH;
use thread_search::{list, search};

// The frame at the position k, with its own registers: its refusal, or its outline with the arrays that hold its pointers.
pub fn judge_frame(
    s: &[u8],
    image: &[u8],
    registers: &[u64],
    first: u64,
    olds: &[u64],
    news: &[u64],
    machine: Machine,
    frames: &[u64],
    count: usize,
    keys: &[u64; FRAMES_MOST],
    hits: &[usize; HITS_LENGTH],
    k: usize,
    live: &mut [u8; PAIRS_MOST],
    bases: &mut [usize; PAIRS_MOST],
    derived: &mut [usize; PAIRS_MOST],
    settings: Settings,
) -> Outline
    requires { Ready (restore s.now olds.now news.now first settings) machine (length image.now) (length registers.now) frames.now count keys.now hits.now × (k < count) }
    ensures { Judged (restore s.now olds.now news.now first settings) image.now (stopped_at (thread_of machine frames.now registers.now) k)
        (cursor (stopped_at (thread_of machine frames.now registers.now) k)) result live.new bases.new derived.new }
{
    let frame = list::frame_at(machine, frames, k);
    let found = search::of_frame(s, keys, count, hits, frame);
    let p = REGISTERS * k;
    let at = relocate_frame::cursor(frame, &registers[p..p + REGISTERS]);
    relocate_judge::judge_found(
        s,
        found,
        image,
        &registers[p..p + REGISTERS],
        first,
        olds,
        news,
        at,
        live,
        bases,
        derived,
        settings.most,
    )
}

// The first refused frame's number with its position, or the sum of the pointers.
fn judge_frames(
    s: &[u8],
    image: &[u8],
    registers: &[u64],
    first: u64,
    olds: &[u64],
    news: &[u64],
    machine: Machine,
    frames: &[u64],
    count: usize,
    keys: &[u64; FRAMES_MOST],
    hits: &[usize; HITS_LENGTH],
    settings: Settings,
) -> Move
    requires { Ready (restore s.now olds.now news.now first settings) machine (length image.now) (length registers.now) frames.now count keys.now hits.now }
    ensures { result ≡ judged (restore s.now olds.now news.now first settings) image.now 0 (frames_from (thread_of machine frames.now registers.now) count 0)
        (accepted_move (pointers_in (restore s.now olds.now news.now first settings) image.now (frames_from (thread_of machine frames.now registers.now) count 0))) }
{
    let mut live = [0u8; PAIRS_MOST];
    let mut bases = [0usize; PAIRS_MOST];
    let mut derived = [0usize; PAIRS_MOST];
    let mut sum: usize = 0;
    for k in 0..count {
        let outline = judge_frame(
            s,
            image,
            registers,
            first,
            olds,
            news,
            machine,
            frames,
            count,
            keys,
            hits,
            k,
            &mut live,
            &mut bases,
            &mut derived,
            settings,
        );
        if outline.number != 0 {
            return moving::refused(outline.number, k);
        }
        sum += outline.pointers;
    }
    Move {
        number: 0,
        place: 0,
        count: sum,
    }
}

// The frames of a right list, and then 26.
fn of_frames(
    s: &[u8],
    image: &[u8],
    registers: &[u64],
    first: u64,
    olds: &[u64],
    news: &[u64],
    machine: Machine,
    list: &[u64],
    count: usize,
    keys: &[u64; FRAMES_MOST],
    hits: &[usize; HITS_LENGTH],
    settings: Settings,
) -> Move
    requires { Ready (restore s.now olds.now news.now first settings) machine (length image.now) (length registers.now) list.now count keys.now hits.now }
    ensures { result ≡ frames_answer (restore s.now olds.now news.now first settings) image.now (frames_from (thread_of machine list.now registers.now) count 0) }
{
    let answer = judge_frames(
        s, image, registers, first, olds, news, machine, list, count, keys, hits, settings,
    );
    if answer.number != 0 {
        return answer;
    }
    let shared = thread_extents::first_shared(machine, s, list, registers, count, keys, hits);
    if shared < count {
        return moving::refused(26, shared);
    }
    answer
}

// 13, 14, 25 and what follows.
fn of_section(
    s: &[u8],
    image: &[u8],
    registers: &[u64],
    first: u64,
    olds: &[u64],
    news: &[u64],
    machine: Machine,
    list: &[u64],
    count: usize,
    keys: &[u64; FRAMES_MOST],
    hits: &[usize; HITS_LENGTH],
    settings: Settings,
) -> Move
    requires { Looked s.now list.now count keys.now hits.now × (list_right list.now registers.now ≡ true → count ≡ length list.now / frame_numbers)
        × (allowed (restore s.now olds.now news.now first settings) machine ≡ true) × (settings.most ≤ pairs_most) }
    ensures { result ≡ thread_answer (restore s.now olds.now news.now first settings) image.now (thread_of machine list.now registers.now) }
{
    if !extent::image_right(first, image.len()) {
        return moving::refused(13, 0);
    }
    if !table::table_right(olds, news) {
        return moving::refused(14, 0);
    }
    if !list::list_right(list, registers) {
        return moving::refused(25, 0);
    }
    of_frames(
        s, image, registers, first, olds, news, machine, list, count, keys, hits, settings,
    )
}

// What `thread_call::relocate_thread` answers of an accepted section in which the frames' records are found: 33, and what follows.
pub fn judge(
    s: &[u8],
    image: &[u8],
    registers: &[u64],
    first: u64,
    olds: &[u64],
    news: &[u64],
    machine: Machine,
    list: &[u64],
    count: usize,
    keys: &[u64; FRAMES_MOST],
    hits: &[usize; HITS_LENGTH],
    settings: Settings,
) -> Move
    requires { Looked s.now list.now count keys.now hits.now × (list_right list.now registers.now ≡ true → count ≡ length list.now / frame_numbers) × (settings.most ≤ pairs_most) }
    ensures { result ≡ thread_answer (restore s.now olds.now news.now first settings) image.now (thread_of machine list.now registers.now) }
{
    if !relocate_frame::allowed(tables::is_old(s), machine, settings) {
        return moving::refused(33, 0);
    }
    of_section(
        s, image, registers, first, olds, news, machine, list, count, keys, hits, settings,
    )
}
