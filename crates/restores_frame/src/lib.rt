// The move of one frame by the edition that it names, with the machine as a number.
#![tactic(auto)]

ghost use Rattle.restores.specs.Restores.{request};
ghost use Rattle.restores.specs.Moves.{numbered};
ghost use Rattle.restores.specs.Code.{MovesUnder};

use editions::Store;
use moves::Move;
use relocate::Frame;
use relocate_frame::moving;

// Relocates one frame under an edition of the store: 31 first, and any machine but 0 and 1 is 33 after 1 to 9; then as `relocate_frame::relocate`
// does with the edition's settings.
pub fn relocate(
    store: Store,
    edition: u64,
    section: &[u8],
    image: &mut [u8],
    first: u64,
    olds: &[u64],
    news: &[u64],
    machine: u64,
    address: u64,
    function: u64,
    registers: &mut [u64],
) -> Move
    ensures { MovesUnder (request store edition section.now olds.now news.now first) image.old (numbered machine address function registers.old) result image.new registers.new }
{
    let begun = restores::begin(store, edition, machine, section);
    if begun.passed {
        let known = begun.machine;
        let frame = Frame {
            machine: known,
            address,
            function,
        };
        let settings = begun.settings;
        return relocate_frame::relocate(
            section, image, first, olds, news, frame, registers, settings,
        );
    }
    moving::refused(begun.number, begun.place)
}
