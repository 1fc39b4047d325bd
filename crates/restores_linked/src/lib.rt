// The move of a whole thread over a linked section by the edition that it names, with the machine as a number.
#![tactic(auto)]

ghost use Rattle.stackmap.specs.Verdict.{verdict};
ghost use Rattle.std.specs.Prelude.{◌≡◌};
ghost use Rattle.questions.specs.Questions.{ask};
ghost use Rattle.moves.specs.Settle.{refused_move};
ghost use Rattle.restores.specs.Restores.{request};
ghost use Rattle.restores_thread.specs.Threads.{numbered_thread};
ghost use Rattle.restores_linked.specs.Code.{LinkedUnder};

use editions::Store;
use moves::Move;
use refusals::Refusal;
use relocate_frame::moving;
use restores::LAST_MACHINE;

const NOT_ALLOWED: u8 = 33;

const UNKNOWN_EDITION: u8 = 31;

// A number that is no machine's: the maps' refusal or 27, or 33.
fn unknown_machine(v: Result<usize, Refusal>) -> Move
    ensures { result ≡ ask refused_move (refused_move 33 0) (verdict v) }
{
    match v {
        Ok(_) => moving::refused(NOT_ALLOWED, 0),
        Err(Refusal(cause, place)) => moving::refused(cause.number(), place),
    }
}

// Relocates the frames of a list over a linked section under an edition of the store: 31 first, and any machine but 0 and 1 is 33 after the maps'
// refusals and 27; then as `linked_call::relocate_linked` does with the edition's settings.
pub fn relocate_linked(
    store: Store,
    edition: u64,
    section: &[u8],
    image: &mut [u8],
    first: u64,
    olds: &[u64],
    news: &[u64],
    machine: u64,
    list: &[u64],
    registers: &mut [u64],
) -> Move
    ensures { LinkedUnder (request store edition section.now olds.now news.now first) image.old (numbered_thread machine list.now registers.old) result image.new registers.new }
{
    let named = editions_settings::named(store, edition);
    if named.number != 0 {
        return moving::refused(UNKNOWN_EDITION, 0);
    }
    if machine > LAST_MACHINE {
        return unknown_machine(linked_call::check(section));
    }
    let known = editions_settings::machine_of(machine);
    let settings = named.settings;
    linked_call::relocate_linked(
        section, image, first, olds, news, known, list, registers, settings,
    )
}
