// The exported functions that are handed an address index, for C and Rust, and nothing else.
ghost use Rattle.std.specs.Prelude.{◌≡◌};
ghost use Rattle.index.specs.Index.{by_index, all_by_index};
ghost use Rattle.moves.specs.Settle.{refused_move};
ghost use Rattle.relocate.specs.Restore.{restore, everything};
ghost use Rattle.thread_index.specs.ByIndex.{thread_by_index_answer, thread_by_index_image, thread_by_index_registers};
ghost use Rattle.thread.specs.Thread.{thread_of};
ghost use Rattle.treskibben_answers.specs.Answer.{find_answer_of, move_answer};
ghost use Rattle.editions_settings.specs.Machine.{machine_of, of_machine, left_of};
ghost use Rattle.treskibben.specs.AddressIndex.{listed};

use restores::LAST_MACHINE;

// The question by address through an index: the section's refusal, 27 on version 1, 29 unless the list is the section's index, 10 exactly if
// no record has the address; or the first record with it, its function, and how many records share it.
#[unsafe(no_mangle)]
pub extern "C" fn treskibben_find_by_index(
    section: &[u8],
    index: &[u64],
    address: u64,
) -> treskibben_answers::FindAnswer
    ensures { result ≡ find_answer_of (by_index section.now index.now address) }
{
    treskibben_answers::search_answer(index_find::find_by_index(section, index, address))
}

// Many such questions in one call: five numbers an address, those of the answer above. The section's refusal, 27, 29, 24 if the list of
// answers is too short, or how many numbers were written. A refusal writes nothing, and nothing is written beyond those numbers.
#[unsafe(no_mangle)]
pub extern "C" fn treskibben_find_all_by_index(
    section: &[u8],
    index: &[u64],
    addresses: &[u64],
    answers: &mut [u64],
) -> treskibben_answers::Answer
    ensures { (result ≡ listed (all_by_index section.now index.now addresses.now answers.old)) × (answers.new ≡ (all_by_index section.now index.now addresses.now answers.old).output) }
{
    let w = index_find_all::find_all_by_index(section, index, addresses, answers);
    treskibben_answers::written_answer(w)
}

// The move of a whole thread that is handed an index: as `treskibben_thread`, and 27 and 29 between 14 and 25.
#[unsafe(no_mangle)]
pub extern "C" fn treskibben_thread_by_index(
    section: &[u8],
    image: &mut [u8],
    first: u64,
    olds: &[u64],
    news: &[u64],
    machine: u64,
    frames: &[u64],
    registers: &mut [u64],
    index: &[u64],
) -> treskibben_answers::Answer
    ensures { (result ≡ move_answer (of_machine refused_move machine section.now (thread_by_index_answer (restore section.now olds.now news.now first (everything (machine_of machine)))
        image.old index.now (thread_of (machine_of machine) frames.now registers.old))))
        × (image.new ≡ left_of machine image.old (thread_by_index_image (restore section.now olds.now news.now first (everything (machine_of machine)))
        image.old index.now (thread_of (machine_of machine) frames.now registers.old)))
        × (registers.new ≡ left_of machine registers.old (thread_by_index_registers (restore section.now olds.now news.now first (everything (machine_of machine)))
        image.old index.now (thread_of (machine_of machine) frames.now registers.old))) }
{
    if machine > LAST_MACHINE {
        return treskibben_answers::unknown_machine(stackmap_check::check(section));
    }
    let known = editions_settings::machine_of(machine);
    treskibben_answers::move_answer(thread_index::relocate_thread_by_index(
        section,
        image,
        first,
        olds,
        news,
        known,
        frames,
        registers,
        index,
        editions_settings::everything(known),
    ))
}
