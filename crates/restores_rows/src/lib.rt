// Why, for all slots of a frame or of a thread in one call, by the edition that the move names, with the machine as a number. Nothing but the lent
// list is written.
#![tactic(auto)]

ghost use Rattle.std.specs.Prelude.{◌≡◌};
ghost use Rattle.restores.specs.Restores.{request};
ghost use Rattle.restores.specs.Moves.{numbered};
ghost use Rattle.restores_thread.specs.Threads.{numbered_thread};
ghost use Rattle.restores_rows.specs.Rows.{explain_frame_under, explain_frame_list_under, explain_thread_under, explain_thread_list_under};

use editions::Store;
use moves::Move;
use relocate::Frame;
use relocate_frame::moving;

// Refused by 31 first, and any machine but 0 and 1 by 33 after 1 to 9; then as `explain_frame::explain` does with the edition's settings.
pub fn explain_frame(
    store: Store,
    edition: u64,
    section: &[u8],
    image: &[u8],
    first: u64,
    olds: &[u64],
    news: &[u64],
    machine: u64,
    address: u64,
    function: u64,
    registers: &[u64],
    rows: &mut [u64],
) -> Move
    ensures { (result ≡ explain_frame_under (request store edition section.now olds.now news.now first) image.now (numbered machine address function registers.now) rows.old)
        × (rows.new ≡ explain_frame_list_under (request store edition section.now olds.now news.now first) image.now (numbered machine address function registers.now) rows.old) }
{
    let begun = restores::begin(store, edition, machine, section);
    if begun.passed {
        let known = begun.machine;
        let frame = Frame {
            machine: known,
            address,
            function,
        };
        let settings = begun.settings;
        return explain_frame::explain(
            section, image, first, olds, news, frame, registers, rows, settings,
        );
    }
    moving::refused(begun.number, begun.place)
}

// The same of a thread, as `explain_thread::explain` does.
pub fn explain_thread(
    store: Store,
    edition: u64,
    section: &[u8],
    image: &[u8],
    first: u64,
    olds: &[u64],
    news: &[u64],
    machine: u64,
    list: &[u64],
    registers: &[u64],
    rows: &mut [u64],
) -> Move
    ensures { (result ≡ explain_thread_under (request store edition section.now olds.now news.now first) image.now (numbered_thread machine list.now registers.now) rows.old)
        × (rows.new ≡ explain_thread_list_under (request store edition section.now olds.now news.now first) image.now (numbered_thread machine list.now registers.now) rows.old) }
{
    let begun = restores::begin(store, edition, machine, section);
    if begun.passed {
        let known = begun.machine;
        let settings = begun.settings;
        return explain_thread::explain(
            section, image, first, olds, news, known, list, registers, rows, settings,
        );
    }
    moving::refused(begun.number, begun.place)
}
