// The exported functions of the bench controller, for C and Rust, and nothing else. What is outside its profile is 50: at 0 for the version or the
// machine, any number but 0, and else at the first record with a breach.
// Kept: each function is one call, and what it repeats of those in `edition_moves` is its list of arguments and its contract: the C interface.
ghost use Rattle.std.specs.Prelude.{◌≡◌};
ghost use Rattle.relocate.specs.declared.Machine.TheVariants.{Amd64};
ghost use Rattle.restores.specs.Restores.{request};
ghost use Rattle.restores.specs.Moves.{numbered};
ghost use Rattle.restores_thread.specs.Threads.{numbered_thread};
ghost use Rattle.controller.specs.Profile.{profile_check};
ghost use Rattle.controller_editions.specs.Under.{controller_answer_under, controller_image_under, controller_registers_under};
ghost use Rattle.controller_editions.specs.Under.{controller_thread_answer_under, controller_thread_image_under, controller_thread_registers_under};
ghost use Rattle.treskibben_answers.specs.Answer.{answer, move_answer};

use editions::Store;
use relocate::Machine;
use treskibben_answers as answers;

// The check of a section against the profile: refusals 1 to 9, then 50, or accepted with the value 0.
#[unsafe(no_mangle)]
pub extern "C" fn treskibben_controller_check(section: &[u8]) -> answers::Answer
    ensures { result ≡ answer (profile_check Amd64 section.now) }
{
    answers::check_answer(controller_profile::check(section, Machine::Amd64))
}

// The move of one frame under an edition, as `treskibben_edition_relocate`, with 50 between 1 to 9 and 33.
#[unsafe(no_mangle)]
pub extern "C" fn treskibben_controller_relocate(
    store: Store,
    edition: u64,
    section: &[u8],
    image: &mut [u8],
    first: u64,
    olds: &[u64],
    news: &[u64],
    machine: u64,
    frame: answers::Frame,
    registers: &mut [u64],
) -> answers::Answer
    ensures { (result ≡ move_answer (controller_answer_under (request store edition section.now olds.now news.now first) image.old (numbered machine frame.address frame.function registers.old)))
        × (image.new ≡ controller_image_under (request store edition section.now olds.now news.now first) image.old (numbered machine frame.address frame.function registers.old))
        × (registers.new ≡ controller_registers_under (request store edition section.now olds.now news.now first) image.old (numbered machine frame.address frame.function registers.old)) }
{
    answers::move_answer(controller_editions::relocate(
        store,
        edition,
        section,
        image,
        first,
        olds,
        news,
        machine,
        frame.address,
        frame.function,
        registers,
    ))
}

// The move of a whole thread under an edition, as `treskibben_edition_thread`, with 50 between 1 to 9 and 33.
#[unsafe(no_mangle)]
pub extern "C" fn treskibben_controller_thread(
    store: Store,
    edition: u64,
    section: &[u8],
    image: &mut [u8],
    first: u64,
    olds: &[u64],
    news: &[u64],
    machine: u64,
    frames: &[u64],
    registers: &mut [u64],
) -> answers::Answer
    ensures { (result ≡ move_answer (controller_thread_answer_under (request store edition section.now olds.now news.now first) image.old (numbered_thread machine frames.now registers.old)))
        × (image.new ≡ controller_thread_image_under (request store edition section.now olds.now news.now first) image.old (numbered_thread machine frames.now registers.old))
        × (registers.new ≡ controller_thread_registers_under (request store edition section.now olds.now news.now first) image.old (numbered_thread machine frames.now registers.old)) }
{
    answers::move_answer(controller_editions::relocate_thread(
        store, edition, section, image, first, olds, news, machine, frames, registers,
    ))
}
