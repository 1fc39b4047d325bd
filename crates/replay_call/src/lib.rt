// A replay under an edition of a store: 35 before all else, and each answer 31 where the edition is unknown.
#![tactic(auto)]

ghost use Rattle.std.specs.Prelude.{◌≡◌};
ghost use Rattle.relocate.specs.Restore.{restore};
ghost use Rattle.replay.specs.Replay.{compared, frames_of, answers_under, final_under, replay_answer, replay_image};
ghost use Rattle.replay.specs.Code.{steps_from, Holds};

use editions::Store;
use relocate_frame::moving;
use replay::Outcome;
use replay_trace::items;

// A trace that holds these steps, under the edition that is named.
// No entry point: it requires that the trace is whole.
fn of_steps(
    store: Store,
    edition: u64,
    section: &[u8],
    image: &mut [u8],
    first: u64,
    olds: &[u64],
    news: &[u64],
    trace: &[u8],
    all: usize,
) -> Outcome
    requires { Holds trace.now all }
    ensures { (result ≡ compared 0 (steps_from trace.now all 0)
        (answers_under store edition (restore section.now olds.now news.now first) image.old (frames_of (steps_from trace.now all 0))))
        × (image.new ≡ final_under store edition (restore section.now olds.now news.now first) image.old (frames_of (steps_from trace.now all 0))) }
{
    let named = editions_settings::named(store, edition);
    if named.number != 0 {
        return replay_compare::alike(trace, all, 0, moving::refused(31, 0), Outcome::Same);
    }
    let settings = named.settings;
    replay_frames::replay_all(section, image, first, olds, news, trace, all, settings)
}

// Moves the frames of a trace one after another in the stack image that starts at the address `first`, and names the first recorded answer that
// differs from the answer now. A broken trace leaves the image as lent; else the image ends as the frames leave it.
pub fn replay(
    store: Store,
    edition: u64,
    section: &[u8],
    image: &mut [u8],
    first: u64,
    olds: &[u64],
    news: &[u64],
    trace: &[u8],
) -> Outcome
    ensures { (result ≡ replay_answer store edition (restore section.now olds.now news.now first) image.old trace.now)
        × (image.new ≡ replay_image store edition (restore section.now olds.now news.now first) image.old trace.now) }
{
    match items::measure(trace) {
        Err(broken) => Outcome::Broken(broken.place),
        Ok(all) => of_steps(
            store, edition, section, image, first, olds, news, trace, all,
        ),
    }
}
