// The exported functions on linked sections, several stack maps one after the other, for C and Rust, and nothing else.
ghost use Rattle.std.specs.Prelude.{◌≡◌};
ghost use Rattle.linked.specs.Linked.{maps_of};
ghost use Rattle.linked.specs.Find.{by_address_in};
ghost use Rattle.restores.specs.Restores.{request};
ghost use Rattle.restores_thread.specs.Threads.{numbered_thread};
ghost use Rattle.restores_linked.specs.Linked.{linked_answer_under, linked_image_under, linked_registers_under};
ghost use Rattle.treskibben_answers.specs.Answer.{move_answer};
ghost use Rattle.treskibben_linked.specs.Answer.{maps_answer, found_answer};

use editions::Store;
use treskibben_answers::Answer;
use treskibben_linked::LinkedAnswer;

// How many maps a linked section has, with the first byte and the length of each, by turns, in the lent list: the refusal of a map at its
// place in the whole, or 24 if the list is too short. A refusal writes nothing, and nothing is written beyond those numbers.
#[unsafe(no_mangle)]
pub extern "C" fn treskibben_linked_maps(section: &[u8], list: &mut [u64]) -> Answer
    ensures { (result ≡ maps_answer (maps_of section.now list.old)) × (list.new ≡ (maps_of section.now list.old).output) }
{
    let m = linked_maps::maps(section, list);
    treskibben_linked::maps_answer(m)
}

// The question by address over all maps: the refusal of a map, 27 at the first byte of a map of version 1, 10 exactly if no record has the
// address, or the first that has, with its map.
#[unsafe(no_mangle)]
pub extern "C" fn treskibben_linked_find(section: &[u8], address: u64) -> LinkedAnswer
    ensures { result ≡ found_answer (by_address_in section.now address) }
{
    treskibben_linked::find_answer(linked_find::find(section, address))
}

// The move of a whole thread over a linked section under an edition, as `treskibben_edition_thread`: 10 and 15 count over all maps, and all else is as
// in the frame's own map. After 31 come the maps' refusals, at their places in the whole, and 27 at the first byte of a map of version 1.
#[unsafe(no_mangle)]
pub extern "C" fn treskibben_edition_linked_thread(
    store: Store,
    edition: u64,
    section: &[u8],
    image: &mut [u8],
    first: u64,
    olds: &[u64],
    news: &[u64],
    machine: u64,
    frames: &[u64],
    registers: &mut [u64],
) -> Answer
    ensures { (result ≡ move_answer (linked_answer_under (request store edition section.now olds.now news.now first) image.old (numbered_thread machine frames.now registers.old)))
        × (image.new ≡ linked_image_under (request store edition section.now olds.now news.now first) image.old (numbered_thread machine frames.now registers.old))
        × (registers.new ≡ linked_registers_under (request store edition section.now olds.now news.now first) image.old (numbered_thread machine frames.now registers.old)) }
{
    treskibben_answers::move_answer(restores_linked::relocate_linked(
        store, edition, section, image, first, olds, news, machine, frames, registers,
    ))
}
