// The frames of a trace, moved one after another and compared: in parts of at most 4,096 frames, whose records are found in one walk each.
// No entry point: it requires a trace that holds these steps, and settings that the crate above has read.
#![tactic(auto)]

ghost use Rattle.std.specs.Prelude.{◌≡◌, List, ℕ, ◌-◌, ◌≤◌, ◌<◌, length};
ghost use Rattle.moves.specs.Limits.{pairs_most};
ghost use Rattle.relocate.specs.declared.Settings as SettingsType;
ghost use Rattle.relocate.specs.Restore.{restore};
ghost use Rattle.relocate.specs.Lists.{answers, final};
ghost use Rattle.replay.specs.Replay.{compared, frames_of};
ghost use Rattle.replay.specs.Code.{steps_from, Holds, Done};
ghost use Rattle.replay.specs.Code as spec;

use moves_table::table;
use refusals::Refusal;
use relocate::Settings;
use relocate_frame::{extent, moving};
use replay::Outcome;
use thread::FRAMES_MOST;
use thread_search::search;

mod addresses;
mod frames;

// The steps before number `next` are done, and this is known.
#[derive(Clone, Copy)]
struct Part {
    next: usize,
    known: Outcome,
}

// 13, 14: once for all frames.
fn fault(image: &[u8], first: u64, olds: &[u64], news: &[u64]) -> u8
    ensures { (s : List ℕ) (settings : SettingsType.Settings) → result ≡ spec.fault (restore s olds.now news.now first settings) (length image.now) }
{
    if extent::image_right(first, image.len()) {
        if table::table_right(olds, news) {
            return 0;
        }
        return 14;
    }
    13
}

// The part from number i on, after one walk. A refused section gives all frames one answer, and is not walked again.
fn replay_part(
    s: &[u8],
    image: &mut [u8],
    first: u64,
    olds: &[u64],
    news: &[u64],
    t: &[u8],
    all: usize,
    i: usize,
    settings: Settings,
    fault: u8,
    kept: Outcome,
) -> Part
    requires { Holds t.now all × (i < all) × (settings.most ≤ pairs_most) × (fault ≡ spec.fault (restore s.now olds.now news.now first settings) (length image.old)) }
    ensures { Done (restore s.now olds.now news.now first settings) t.now all i kept image.old result.next result.known image.new
        × (i < result.next) × (result.next ≤ all) }
{
    let n = FRAMES_MOST.min(all - i);
    let mut keys = [0u64; FRAMES_MOST];
    addresses::gather(t, i, n, &mut keys);
    let mut hits = [0usize; search::HITS_LENGTH];
    match search::find_all(s, &keys, n, &mut hits) {
        Err(Refusal(cause, place)) => Part {
            next: all,
            known: replay_compare::alike(t, all, i, moving::refused(cause.number(), place), kept),
        },
        Ok(_) => Part {
            next: i + n,
            known: frames::replay_steps(
                s, image, first, olds, news, t, all, i, n, &keys, &hits, settings, fault, kept,
            ),
        },
    }
}

// All steps of a trace: the first answer that differs, and the image that the frames leave.
pub fn replay_all(
    s: &[u8],
    image: &mut [u8],
    first: u64,
    olds: &[u64],
    news: &[u64],
    t: &[u8],
    all: usize,
    settings: Settings,
) -> Outcome
    requires { Holds t.now all × (settings.most ≤ pairs_most) }
    ensures { (result ≡ compared 0 (steps_from t.now all 0) (answers (restore s.now olds.now news.now first settings) (frames_of (steps_from t.now all 0)) image.old))
        × (image.new ≡ final (restore s.now olds.now news.now first settings) (frames_of (steps_from t.now all 0)) image.old) }
{
    let tested = fault(image, first, olds, news);
    let mut known = Outcome::Same;
    let mut i: usize = 0;
    // Kept: how many steps a part has is its own to say, up to the address list's length, so that no range counts the parts.
    while i < all {
        let part = replay_part(
            s, image, first, olds, news, t, all, i, settings, tested, known,
        );
        known = part.known;
        i = part.next;
    }
    known
}
