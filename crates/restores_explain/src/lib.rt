// Why a slot of a frame moves or does not, by the edition that the frame's move names, with the machine as a number. Nothing is written.
#![tactic(auto)]

ghost use Rattle.std.specs.Prelude.{◌≡◌};
ghost use Rattle.explain.specs.Explain.{slot_of};
ghost use Rattle.restores.specs.Restores.{request};
ghost use Rattle.restores.specs.Moves.{numbered};
ghost use Rattle.restores_explain.specs.Explain.{explained_under};

use editions::Store;
use explain::{Asked, Reason};
use relocate::Frame;

// Refused by 31 first, and any machine but 0 and 1 by 33 after 1 to 9; then as `explain_slot::explain` does with the edition's settings.
pub fn explain(
    store: Store,
    edition: u64,
    section: &[u8],
    image: &[u8],
    first: u64,
    olds: &[u64],
    news: &[u64],
    machine: u64,
    address: u64,
    function: u64,
    registers: &[u64],
    asked: Asked,
) -> Reason
    ensures { result ≡ explained_under (request store edition section.now olds.now news.now first) image.now (numbered machine address function registers.now) (slot_of asked) }
{
    let begun = restores::begin(store, edition, machine, section);
    if begun.passed {
        let known = begun.machine;
        let frame = Frame {
            machine: known,
            address,
            function,
        };
        let settings = begun.settings;
        return explain_slot::explain(
            section, image, first, olds, news, frame, registers, settings, asked,
        );
    }
    Reason::Refused(begun.number, begun.place)
}
