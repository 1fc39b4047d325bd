// The exported functions that tell, for all slots at once, why they move or do not, by the edition that the move names, for C and Rust, and nothing
// else. The store goes in by value; 31 comes first, and a machine that is neither 0 nor 1 is 33 after the section's own refusals.
ghost use Rattle.std.specs.Prelude.{◌≡◌};
ghost use Rattle.restores.specs.Restores.{request};
ghost use Rattle.restores.specs.Moves.{numbered};
ghost use Rattle.restores_thread.specs.Threads.{numbered_thread};
ghost use Rattle.restores_rows.specs.Rows.{explain_frame_under, explain_frame_list_under, explain_thread_under, explain_thread_list_under};
ghost use Rattle.treskibben_answers.specs.Answer.{move_answer};

use editions::Store;
use treskibben_answers as answers;

// Sixteen numbers for each pointer of the frame at the start of `rows`, and how many are written; the refusal of the frame's move; or 24 where the
// list is too short. Nothing but these numbers is written.
#[unsafe(no_mangle)]
pub extern "C" fn treskibben_edition_explain_frame(
    store: Store,
    edition: u64,
    section: &[u8],
    image: &[u8],
    first: u64,
    olds: &[u64],
    news: &[u64],
    machine: u64,
    frame: answers::Frame,
    registers: &[u64],
    rows: &mut [u64],
) -> answers::Answer
    ensures { (result ≡ move_answer (explain_frame_under (request store edition section.now olds.now news.now first) image.now (numbered machine frame.address frame.function registers.now) rows.old))
        × (rows.new ≡ explain_frame_list_under (request store edition section.now olds.now news.now first) image.now (numbered machine frame.address frame.function registers.now) rows.old) }
{
    answers::move_answer(restores_rows::explain_frame(
        store,
        edition,
        section,
        image,
        first,
        olds,
        news,
        machine,
        frame.address,
        frame.function,
        registers,
        rows,
    ))
}

// The same for all frames of a thread, in list order, as `treskibben_edition_thread` is lent them: the refusal of the thread's call, 24, or how many
// numbers are written.
#[unsafe(no_mangle)]
pub extern "C" fn treskibben_edition_explain_thread(
    store: Store,
    edition: u64,
    section: &[u8],
    image: &[u8],
    first: u64,
    olds: &[u64],
    news: &[u64],
    machine: u64,
    frames: &[u64],
    registers: &[u64],
    rows: &mut [u64],
) -> answers::Answer
    ensures { (result ≡ move_answer (explain_thread_under (request store edition section.now olds.now news.now first) image.now (numbered_thread machine frames.now registers.now) rows.old))
        × (rows.new ≡ explain_thread_list_under (request store edition section.now olds.now news.now first) image.now (numbered_thread machine frames.now registers.now) rows.old) }
{
    answers::move_answer(restores_rows::explain_thread(
        store, edition, section, image, first, olds, news, machine, frames, registers, rows,
    ))
}
