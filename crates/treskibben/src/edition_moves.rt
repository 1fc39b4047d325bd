// The exported functions of the restores that name an edition, for C and Rust, and nothing else. The store goes in by value and stays as it is;
// 31 comes first, for an edition that is unknown or retired, and a machine that is neither 0 nor 1 is 33 after the section's own refusals.
// Kept: each function is one call, and what it repeats of those in `controllers` is its list of arguments and its contract: the C interface.
ghost use Rattle.std.specs.Prelude.{◌≡◌};
ghost use Rattle.moves.specs.Slots.{memory, register};
ghost use Rattle.restores.specs.Restores.{request};
ghost use Rattle.restores.specs.Moves.{numbered, answer_under, moved_under, registers_under};
ghost use Rattle.restores_thread.specs.Threads.{numbered_thread, thread_answer_under, thread_image_under, thread_registers_under};
ghost use Rattle.restores_thread.specs.Threads.{by_index_answer_under, by_index_image_under, by_index_registers_under};
ghost use Rattle.restores_explain.specs.Explain.{explained_under};
ghost use Rattle.treskibben_answers.specs.Answer.{move_answer};
ghost use Rattle.treskibben_reasons.specs.Answer.{reason_answer};

use editions::Store;
use treskibben_answers as answers;
use treskibben_reasons::ReasonAnswer;

// The move of one frame under an edition, as `treskibben_relocate`, with 33 for a version or a machine that the edition does not allow, and 17 by its
// count.
#[unsafe(no_mangle)]
pub extern "C" fn treskibben_edition_relocate(
    store: Store,
    edition: u64,
    section: &[u8],
    image: &mut [u8],
    first: u64,
    olds: &[u64],
    news: &[u64],
    machine: u64,
    frame: answers::Frame,
    registers: &mut [u64],
) -> answers::Answer
    ensures { (result ≡ move_answer (answer_under (request store edition section.now olds.now news.now first) image.old (numbered machine frame.address frame.function registers.old)))
        × (image.new ≡ moved_under (request store edition section.now olds.now news.now first) image.old (numbered machine frame.address frame.function registers.old))
        × (registers.new ≡ registers_under (request store edition section.now olds.now news.now first) image.old (numbered machine frame.address frame.function registers.old)) }
{
    answers::move_answer(restores_frame::relocate(
        store,
        edition,
        section,
        image,
        first,
        olds,
        news,
        machine,
        frame.address,
        frame.function,
        registers,
    ))
}

// The move of a whole thread under an edition, as `treskibben_thread`.
#[unsafe(no_mangle)]
pub extern "C" fn treskibben_edition_thread(
    store: Store,
    edition: u64,
    section: &[u8],
    image: &mut [u8],
    first: u64,
    olds: &[u64],
    news: &[u64],
    machine: u64,
    frames: &[u64],
    registers: &mut [u64],
) -> answers::Answer
    ensures { (result ≡ move_answer (thread_answer_under (request store edition section.now olds.now news.now first) image.old (numbered_thread machine frames.now registers.old)))
        × (image.new ≡ thread_image_under (request store edition section.now olds.now news.now first) image.old (numbered_thread machine frames.now registers.old))
        × (registers.new ≡ thread_registers_under (request store edition section.now olds.now news.now first) image.old (numbered_thread machine frames.now registers.old)) }
{
    answers::move_answer(restores_thread::relocate_thread(
        store, edition, section, image, first, olds, news, machine, frames, registers,
    ))
}

// The move of a whole thread under an edition that is handed an index, as `treskibben_thread_by_index`.
#[unsafe(no_mangle)]
pub extern "C" fn treskibben_edition_thread_by_index(
    store: Store,
    edition: u64,
    section: &[u8],
    image: &mut [u8],
    first: u64,
    olds: &[u64],
    news: &[u64],
    machine: u64,
    frames: &[u64],
    registers: &mut [u64],
    index: &[u64],
) -> answers::Answer
    ensures { (result ≡ move_answer (by_index_answer_under (request store edition section.now olds.now news.now first) image.old index.now (numbered_thread machine frames.now registers.old)))
        × (image.new ≡ by_index_image_under (request store edition section.now olds.now news.now first) image.old index.now (numbered_thread machine frames.now registers.old))
        × (registers.new ≡ by_index_registers_under (request store edition section.now olds.now news.now first) image.old index.now (numbered_thread machine frames.now registers.old)) }
{
    answers::move_answer(restores_thread::relocate_thread_by_index(
        store, edition, section, image, first, olds, news, machine, frames, registers, index,
    ))
}

// Why the slot that begins at an address moves or does not under an edition, as `treskibben_explain_address`.
#[unsafe(no_mangle)]
pub extern "C" fn treskibben_edition_explain_address(
    store: Store,
    edition: u64,
    section: &[u8],
    image: &[u8],
    first: u64,
    olds: &[u64],
    news: &[u64],
    machine: u64,
    frame: answers::Frame,
    registers: &[u64],
    address: u64,
) -> ReasonAnswer
    ensures { result ≡ reason_answer (explained_under (request store edition section.now olds.now news.now first) image.now (numbered machine frame.address frame.function registers.now) (memory address)) }
{
    treskibben_reasons::reason_answer(restores_explain::explain(
        store,
        edition,
        section,
        image,
        first,
        olds,
        news,
        machine,
        frame.address,
        frame.function,
        registers,
        treskibben_reasons::at_address(address),
    ))
}

// The same of a register, by its DWARF number.
#[unsafe(no_mangle)]
pub extern "C" fn treskibben_edition_explain_register(
    store: Store,
    edition: u64,
    section: &[u8],
    image: &[u8],
    first: u64,
    olds: &[u64],
    news: &[u64],
    machine: u64,
    frame: answers::Frame,
    registers: &[u64],
    number: u64,
) -> ReasonAnswer
    ensures { result ≡ reason_answer (explained_under (request store edition section.now olds.now news.now first) image.now (numbered machine frame.address frame.function registers.now) (register number)) }
{
    treskibben_reasons::reason_answer(restores_explain::explain(
        store,
        edition,
        section,
        image,
        first,
        olds,
        news,
        machine,
        frame.address,
        frame.function,
        registers,
        treskibben_reasons::of_register(number),
    ))
}
