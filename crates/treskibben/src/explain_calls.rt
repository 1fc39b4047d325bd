// The exported functions that tell why a slot moves or does not, for C and Rust, and nothing else.
ghost use Rattle.std.specs.Prelude.{◌≡◌};
ghost use Rattle.moves.specs.Slots.{memory, register};
ghost use Rattle.relocate.specs.Restore.{restore, everything};
ghost use Rattle.relocate.specs.Stopped.{stopped};
ghost use Rattle.explain.specs.declared.Reason.TheVariants.{Refused};
ghost use Rattle.explain.specs.Explain.{explained, slot_of};
ghost use Rattle.treskibben_answers.specs.Answer.{frame_of};
ghost use Rattle.editions_settings.specs.Machine.{machine_of, of_machine};
ghost use Rattle.treskibben_reasons.specs.Answer.{reason_answer};

use explain::Asked;
use restores::LAST_MACHINE;
use treskibben_answers as answers;
use treskibben_reasons::ReasonAnswer;

// Why the slot that is asked for moves or does not. The machine is as in `treskibben_relocate`.
fn reason_of(
    section: &[u8],
    image: &[u8],
    first: u64,
    olds: &[u64],
    news: &[u64],
    machine: u64,
    frame: answers::Frame,
    registers: &[u64],
    asked: Asked,
) -> ReasonAnswer
    ensures { result ≡ reason_answer (of_machine Refused machine section.now
        (explained (restore section.now olds.now news.now first (everything (machine_of machine))) image.now
        (stopped (frame_of (machine_of machine) frame) registers.now) (slot_of asked))) }
{
    if machine > LAST_MACHINE {
        return treskibben_reasons::reason_answer(treskibben_reasons::unknown_machine(
            stackmap_check::check(section),
        ));
    }
    let known = editions_settings::machine_of(machine);
    treskibben_reasons::reason_answer(explain_slot::explain(
        section,
        image,
        first,
        olds,
        news,
        answers::frame_of(known, frame),
        registers,
        editions_settings::everything(known),
        asked,
    ))
}

// Why the slot that begins at an address moves or does not: nothing that is lent is written. The machine is as in `treskibben_relocate`.
#[unsafe(no_mangle)]
pub extern "C" fn treskibben_explain_address(
    section: &[u8],
    image: &[u8],
    first: u64,
    olds: &[u64],
    news: &[u64],
    machine: u64,
    frame: answers::Frame,
    registers: &[u64],
    address: u64,
) -> ReasonAnswer
    ensures { result ≡ reason_answer (of_machine Refused machine section.now
        (explained (restore section.now olds.now news.now first (everything (machine_of machine))) image.now
        (stopped (frame_of (machine_of machine) frame) registers.now) (memory address))) }
{
    reason_of(
        section,
        image,
        first,
        olds,
        news,
        machine,
        frame,
        registers,
        treskibben_reasons::at_address(address),
    )
}

// The same of a register, by its DWARF number.
#[unsafe(no_mangle)]
pub extern "C" fn treskibben_explain_register(
    section: &[u8],
    image: &[u8],
    first: u64,
    olds: &[u64],
    news: &[u64],
    machine: u64,
    frame: answers::Frame,
    registers: &[u64],
    number: u64,
) -> ReasonAnswer
    ensures { result ≡ reason_answer (of_machine Refused machine section.now
        (explained (restore section.now olds.now news.now first (everything (machine_of machine))) image.now
        (stopped (frame_of (machine_of machine) frame) registers.now) (register number))) }
{
    reason_of(
        section,
        image,
        first,
        olds,
        news,
        machine,
        frame,
        registers,
        treskibben_reasons::of_register(number),
    )
}
