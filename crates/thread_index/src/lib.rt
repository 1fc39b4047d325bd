// A whole thread in one call that is handed an index of the section. The index is tested; where it is the right one, the call is that
// without an index.
#![tactic(auto)]

ghost use Rattle.std.specs.Prelude.{◌≡◌, true, false, ◌≤◌};
ghost use Rattle.stackmap.specs.Section.{is_old};
ghost use Rattle.stackmap.specs.Check.{Accepted};
ghost use Rattle.index.specs.Index.{index_of, same};
ghost use Rattle.moves.specs.Limits.{pairs_most};
ghost use Rattle.relocate.specs.Restore.{restore, allowed};
ghost use Rattle.thread.specs.Thread.{thread_of};
ghost use Rattle.thread_index.specs.ByIndex.{ThreadsByIndex};

use moves::Move;
use moves_table::table;
use questions_find::find;
use relocate::{Machine, Settings};
use relocate_frame::{extent, moving};
use stackmap_tables::tables;

const OTHER_VERSION: u8 = 27;

const OTHER_INDEX: u8 = 29;

// 13, 14, 27, 29 and what follows, of an accepted section whose version is allowed, as the machine is; `right` tells of a section of version 3
// whether the list `index` is its index.
fn of_checked(
    section: &[u8],
    image: &mut [u8],
    first: u64,
    olds: &[u64],
    news: &[u64],
    machine: Machine,
    list: &[u64],
    registers: &mut [u64],
    index: &[u64],
    right: bool,
    settings: Settings,
) -> Move
    requires { Accepted section.now × (allowed (restore section.now olds.now news.now first settings) machine ≡ true)
        × (is_old section.now ≡ false → right ≡ same index.now (index_of section.now)) × (settings.most ≤ pairs_most) }
    ensures { ThreadsByIndex (restore section.now olds.now news.now first settings) image.old index.now (thread_of machine list.now registers.old) result image.new registers.new }
{
    if extent::image_right(first, image.len()) {
        if table::table_right(olds, news) {
            if tables::is_old(section) {
                return moving::refused(OTHER_VERSION, 0);
            }
            if right {
                return thread_call::relocate_thread(
                    section, image, first, olds, news, machine, list, registers, settings,
                );
            }
            return moving::refused(OTHER_INDEX, 0);
        }
        return moving::refused(14, 0);
    }
    moving::refused(13, 0)
}

// As `relocate_thread`, and between 14 and 25: 27 on version 1, and 29 unless the list `index` is the section's index.
// No entry point: it requires settings that the crates above have read or made.
pub fn relocate_thread_by_index(
    section: &[u8],
    image: &mut [u8],
    first: u64,
    olds: &[u64],
    news: &[u64],
    machine: Machine,
    list: &[u64],
    registers: &mut [u64],
    index: &[u64],
    settings: Settings,
) -> Move
    requires { settings.most ≤ pairs_most }
    ensures { ThreadsByIndex (restore section.now olds.now news.now first settings) image.old index.now (thread_of machine list.now registers.old) result image.new registers.new }
{
    let checked = index_check::check(section, index, 0);
    let found = checked.found;
    if find::of_section(found) {
        return moving::refused(found.number, found.place);
    }
    if relocate_frame::allowed(tables::is_old(section), machine, settings) {
        return of_checked(
            section,
            image,
            first,
            olds,
            news,
            machine,
            list,
            registers,
            index,
            checked.right,
            settings,
        );
    }
    moving::refused(33, 0)
}
