// The exported functions, for C and Rust, and nothing else.
#![tactic(auto)]

ghost use Rattle.std.specs.Prelude.{◌≡◌};
ghost use Rattle.stackmap.specs.Check.{section_check};
ghost use Rattle.questions.specs.Questions.{by_address, by_function, record_place, location_answer, live_out_answer};
ghost use Rattle.listing.specs.Listing.{to_listing, to_section};
ghost use Rattle.moves.specs.Settle.{refused_move};
ghost use Rattle.relocate.specs.Restore.{restore, everything};
ghost use Rattle.relocate.specs.Stopped.{stopped};
ghost use Rattle.relocate.specs.Relocation;
ghost use Rattle.thread.specs.Thread.{thread_answer, thread_image, thread_registers};
ghost use Rattle.thread.specs.Thread.{thread_of};
ghost use Rattle.editions_settings.specs.Machine.{machine_of, of_machine, left_of};
ghost use Rattle.treskibben_answers.specs.Answer.{answer, converted, move_answer, frame_of, find_answer_of, record_place_of, location_of, live_out_of};
ghost use Rattle.treskibben_answers.specs.Version.{version};

use restores::LAST_MACHINE;
use treskibben_answers as answers;
use treskibben_questions as asked;

pub mod address_index;
pub mod controllers;
pub mod edition_calls;
pub mod edition_moves;
pub mod explain_calls;
pub mod explain_reports;
pub mod flat_sections;
pub mod index_lookups;
pub mod linked_sections;
pub mod replays;
pub mod reports;

// The number of this interface, which include/treskibben.h has as TRESKIBBEN_VERSION.
#[unsafe(no_mangle)]
pub extern "C" fn treskibben_version() -> u32
    ensures { result ≡ version }
{
    answers::version()
}

// The same. Its name is of this version alone, so that a program that refers to it can't be linked with a library of another.
#[unsafe(no_mangle)]
pub extern "C" fn treskibben_version_3() -> u32
    ensures { result ≡ version }
{
    answers::version()
}

// The check of a section: refusals 1 to 9, or accepted with the value 0.
#[unsafe(no_mangle)]
pub extern "C" fn treskibben_check(section: &[u8]) -> answers::Answer
    ensures { result ≡ answer (section_check section.now) }
{
    answers::check_answer(stackmap_check::check(section))
}

// The question by address: the section's refusal, 27 on version 1, 10 exactly if no record has the address, or the first that has.
#[unsafe(no_mangle)]
pub extern "C" fn treskibben_find(section: &[u8], address: u64) -> answers::FindAnswer
    ensures { result ≡ find_answer_of (by_address section.now address) }
{
    asked::find(section, address)
}

// The question by function number and offset, of version 1: the section's refusal, 27 on version 3, 10 exactly if there is no such
// function or no record at the offset, or the first that is there.
#[unsafe(no_mangle)]
pub extern "C" fn treskibben_find_in_function(
    section: &[u8],
    function: u64,
    offset: u64,
) -> answers::FindAnswer
    ensures { result ≡ find_answer_of (by_function section.now function offset) }
{
    asked::find_in_function(section, function, offset)
}

// The question by record number: the section's refusal, 10 if there is no such record, or where it stands.
#[unsafe(no_mangle)]
pub extern "C" fn treskibben_record(section: &[u8], record: u64) -> answers::RecordPlace
    ensures { result ≡ record_place_of (record_place section.now «record») }
{
    asked::place(section, record)
}

// The question by record and location number: the section's refusal, 10, 11, or the location.
#[unsafe(no_mangle)]
pub extern "C" fn treskibben_location(
    section: &[u8],
    record: u64,
    location: u64,
) -> answers::Location
    ensures { result ≡ location_of (location_answer section.now «record» location) }
{
    asked::location(section, record, location)
}

// The question by record and live-out number: the section's refusal, 10, 11, or the live-out.
#[unsafe(no_mangle)]
pub extern "C" fn treskibben_live_out(
    section: &[u8],
    record: u64,
    live_out: u64,
) -> answers::LiveOut
    ensures { result ≡ live_out_of (live_out_answer section.now «record» live_out) }
{
    asked::live_out(section, record, live_out)
}

// Section to listing: the section's refusal, 24, or the listing in the output and its length. A refusal writes nothing, and
// nothing is written beyond the length.
#[unsafe(no_mangle)]
pub extern "C" fn treskibben_to_listing(section: &[u8], output: &mut [u8]) -> answers::Answer
    ensures { (result ≡ converted (to_listing section.now output.old)) × (output.new ≡ (to_listing section.now output.old).output) }
{
    answers::conversion_answer(lister::to_listing(section, output))
}

// Listing to section: the listing's refusal, the built section's, 24, or the section in the output and its length.
#[unsafe(no_mangle)]
pub extern "C" fn treskibben_to_section(listing: &[u8], output: &mut [u8]) -> answers::Answer
    ensures { (result ≡ converted (to_section listing.now output.old)) × (output.new ≡ (to_section listing.now output.old).output) }
{
    answers::conversion_answer(builder::to_section(listing, output))
}

// The move of one frame in the stack image that starts at the address `first`, by the move table of old and new starts: a refusal,
// with the image and the registers as they were; or accepted with the number of pointers, and each derived slot moved. The machine is 0 for
// AMD64 and 1 for AArch64; any other number is 33 after the section's own refusals.
#[unsafe(no_mangle)]
pub extern "C" fn treskibben_relocate(
    section: &[u8],
    image: &mut [u8],
    first: u64,
    olds: &[u64],
    news: &[u64],
    machine: u64,
    frame: answers::Frame,
    registers: &mut [u64],
) -> answers::Answer
    ensures { (result ≡ move_answer (of_machine refused_move machine section.now
        (Relocation.answer (restore section.now olds.now news.now first (everything (machine_of machine))) image.old (stopped (frame_of (machine_of machine) frame) registers.old))))
        × (image.new ≡ left_of machine image.old
        (Relocation.moved (restore section.now olds.now news.now first (everything (machine_of machine))) image.old (stopped (frame_of (machine_of machine) frame) registers.old)))
        × (registers.new ≡ left_of machine registers.old
        (Relocation.moved_registers (restore section.now olds.now news.now first (everything (machine_of machine))) image.old (stopped (frame_of (machine_of machine) frame) registers.old))) }
{
    if machine > LAST_MACHINE {
        return answers::unknown_machine(stackmap_check::check(section));
    }
    let known = editions_settings::machine_of(machine);
    answers::move_answer(relocate_frame::relocate(
        section,
        image,
        first,
        olds,
        news,
        answers::frame_of(known, frame),
        registers,
        editions_settings::everything(known),
    ))
}

// The move of a whole thread: the frames of a list, two numbers each, address and function, at most 4,096 frames, beside a list of 32 registers
// each. A refusal, with the image and the registers as they were; or accepted with the sum of the pointers, and each derived slot of each
// frame moved.
#[unsafe(no_mangle)]
pub extern "C" fn treskibben_thread(
    section: &[u8],
    image: &mut [u8],
    first: u64,
    olds: &[u64],
    news: &[u64],
    machine: u64,
    frames: &[u64],
    registers: &mut [u64],
) -> answers::Answer
    ensures { (result ≡ move_answer (of_machine refused_move machine section.now (thread_answer (restore section.now olds.now news.now first (everything (machine_of machine)))
        image.old (thread_of (machine_of machine) frames.now registers.old))))
        × (image.new ≡ left_of machine image.old (thread_image (restore section.now olds.now news.now first (everything (machine_of machine)))
        image.old (thread_of (machine_of machine) frames.now registers.old)))
        × (registers.new ≡ left_of machine registers.old (thread_registers (restore section.now olds.now news.now first (everything (machine_of machine)))
        image.old (thread_of (machine_of machine) frames.now registers.old))) }
{
    if machine > LAST_MACHINE {
        return answers::unknown_machine(stackmap_check::check(section));
    }
    let known = editions_settings::machine_of(machine);
    answers::move_answer(thread_call::relocate_thread(
        section,
        image,
        first,
        olds,
        news,
        known,
        frames,
        registers,
        editions_settings::everything(known),
    ))
}
