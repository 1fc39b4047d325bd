// The exported function that replays a recorded restore, for C and Rust, and nothing else.
ghost use Rattle.std.specs.Prelude.{◌≡◌};
ghost use Rattle.relocate.specs.Restore.{restore};
ghost use Rattle.replay.specs.Replay.{replay_answer, replay_image};
ghost use Rattle.treskibben_replays.specs.Answer.{outcome_answer};

use editions::Store;
use treskibben_replays::ReplayAnswer;

// Moves the frames of a trace under an edition, one after another, and names the first recorded answer that differs: 35 and the place of a broken
// trace, with the image as lent, or 0 and the difference, with the image as the frames leave it.
#[unsafe(no_mangle)]
pub extern "C" fn treskibben_edition_replay(
    store: Store,
    edition: u64,
    section: &[u8],
    image: &mut [u8],
    first: u64,
    olds: &[u64],
    news: &[u64],
    trace: &[u8],
) -> ReplayAnswer
    ensures { (result ≡ outcome_answer (replay_answer store edition (restore section.now olds.now news.now first) image.old trace.now))
        × (image.new ≡ replay_image store edition (restore section.now olds.now news.now first) image.old trace.now) }
{
    treskibben_replays::replay_answer(replay_call::replay(
        store, edition, section, image, first, olds, news, trace,
    ))
}
