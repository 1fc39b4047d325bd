// The exported functions of an address index, for C and Rust, and nothing else.
ghost use Rattle.std.specs.Prelude.{◌≡◌};
ghost use Rattle.index.specs.Index.{fill_index};
ghost use Rattle.treskibben.specs.AddressIndex.{listed};

use treskibben_answers::Answer;

// Fills a list with the index of a section, address and record number by turns: the section's refusal, 27 on version 1, 24 if the list is
// too short, or how many entries were written. A refusal writes nothing, and nothing is written beyond those entries.
#[unsafe(no_mangle)]
pub extern "C" fn treskibben_fill_index(section: &[u8], index: &mut [u64]) -> Answer
    ensures { (result ≡ listed (fill_index section.now index.old)) × (index.new ≡ (fill_index section.now index.old).output) }
{
    let w = index_fill::fill(section, index);
    treskibben_answers::written_answer(w)
}
