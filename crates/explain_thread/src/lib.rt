// Why, for all slots of a thread in one call: the answer of the thread's call first, and then the rows of all frames. Nothing but the lent list is
// written.
#![tactic(auto)]

ghost use Rattle.std.specs.Prelude.{◌≡◌, true, ◌/◌, ◌≤◌, length};
ghost use Rattle.moves.specs.Limits.{pairs_most};
ghost use Rattle.relocate.specs.Restore.{restore};
ghost use Rattle.thread.specs.Thread.{frame_numbers, list_right, thread_of};
ghost use Rattle.thread.specs.Code.{Looked};
ghost use Rattle.explain_frames.specs.Rows.{explain_thread, explain_thread_list};

use explain_rows::ROW_NUMBERS;
use explain_thread_rows::put_frames;
use moves::Move;
use refusals::Refusal;
use relocate::{Machine, Settings};
use relocate_frame::moving;
use thread::FRAMES_MOST;
use thread_search::search::HITS_LENGTH;
use thread_search::{addresses, list, search};

// The thread's refusal, 24, or the rows of an accepted section in which the frames' records are found.
fn of_checked(
    s: &[u8],
    image: &[u8],
    registers: &[u64],
    first: u64,
    olds: &[u64],
    news: &[u64],
    machine: Machine,
    list: &[u64],
    count: usize,
    keys: &[u64; FRAMES_MOST],
    hits: &[usize; HITS_LENGTH],
    rows: &mut [u64],
    settings: Settings,
) -> Move
    requires { Looked s.now list.now count keys.now hits.now × (list_right list.now registers.now ≡ true → count ≡ length list.now / frame_numbers) × (settings.most ≤ pairs_most) }
    ensures { (result ≡ explain_thread (restore s.now olds.now news.now first settings) image.now (thread_of machine list.now registers.now) rows.old)
        × (rows.new ≡ explain_thread_list (restore s.now olds.now news.now first settings) image.now (thread_of machine list.now registers.now) rows.old) }
{
    let judged = thread_judge::judge(
        s, image, registers, first, olds, news, machine, list, count, keys, hits, settings,
    );
    if judged.number != 0 {
        return moving::refused(judged.number, judged.place);
    }
    let numbers = ROW_NUMBERS * judged.count;
    if rows.len() < numbers {
        return moving::refused(24, 0);
    }
    put_frames(
        s, image, registers, first, olds, news, machine, list, count, keys, hits, rows, settings,
    );
    Move {
        number: 0,
        place: 0,
        count: numbers,
    }
}

// The rows of all pointers of all frames at the start of the lent list, and how many numbers they are, in one walk of the section; or the refusal
// of the thread's call; or 24 where the list is too short. A refusal leaves the list as it was.
// No entry point: it requires settings that the crates above have read or made.
pub fn explain(
    section: &[u8],
    image: &[u8],
    first: u64,
    olds: &[u64],
    news: &[u64],
    machine: Machine,
    list: &[u64],
    registers: &[u64],
    rows: &mut [u64],
    settings: Settings,
) -> Move
    requires { settings.most ≤ pairs_most }
    ensures { (result ≡ explain_thread (restore section.now olds.now news.now first settings) image.now (thread_of machine list.now registers.now) rows.old)
        × (rows.new ≡ explain_thread_list (restore section.now olds.now news.now first settings) image.now (thread_of machine list.now registers.now) rows.old) }
{
    let count = list::count(list, registers);
    let mut keys = [0u64; FRAMES_MOST];
    addresses::gather(list, count, &mut keys);
    let mut hits = [0usize; HITS_LENGTH];
    match search::find_all(section, &keys, count, &mut hits) {
        Err(Refusal(cause, place)) => moving::refused(cause.number(), place),
        Ok(_) => of_checked(
            section, image, registers, first, olds, news, machine, list, count, &keys, &hits, rows,
            settings,
        ),
    }
}
