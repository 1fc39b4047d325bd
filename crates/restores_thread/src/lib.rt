// The move of a whole thread by the edition that it names, with the machine as a number.
#![tactic(auto)]

ghost use Rattle.restores.specs.Restores.{request};
ghost use Rattle.restores_thread.specs.Threads.{numbered_thread};
ghost use Rattle.restores_thread.specs.Code.{ThreadsUnder, ByIndexUnder};

use editions::Store;
use moves::Move;
use relocate_frame::moving;

// Relocates the frames of a list under an edition of the store: 31 first, and any machine but 0 and 1 is 33 after 1 to 9; then as
// `thread_call::relocate_thread` does with the edition's settings.
pub fn relocate_thread(
    store: Store,
    edition: u64,
    section: &[u8],
    image: &mut [u8],
    first: u64,
    olds: &[u64],
    news: &[u64],
    machine: u64,
    list: &[u64],
    registers: &mut [u64],
) -> Move
    ensures { ThreadsUnder (request store edition section.now olds.now news.now first) image.old (numbered_thread machine list.now registers.old) result image.new registers.new }
{
    let begun = restores::begin(store, edition, machine, section);
    if begun.passed {
        let known = begun.machine;
        let settings = begun.settings;
        return thread_call::relocate_thread(
            section, image, first, olds, news, known, list, registers, settings,
        );
    }
    moving::refused(begun.number, begun.place)
}

// The same, handed an index of the section: as `thread_index::relocate_thread_by_index` does with the edition's settings.
pub fn relocate_thread_by_index(
    store: Store,
    edition: u64,
    section: &[u8],
    image: &mut [u8],
    first: u64,
    olds: &[u64],
    news: &[u64],
    machine: u64,
    list: &[u64],
    registers: &mut [u64],
    index: &[u64],
) -> Move
    ensures { ByIndexUnder (request store edition section.now olds.now news.now first) image.old index.now (numbered_thread machine list.now registers.old) result image.new registers.new }
{
    let begun = restores::begin(store, edition, machine, section);
    if begun.passed {
        let known = begun.machine;
        let settings = begun.settings;
        return thread_index::relocate_thread_by_index(
            section, image, first, olds, news, known, list, registers, index, settings,
        );
    }
    moving::refused(begun.number, begun.place)
}
