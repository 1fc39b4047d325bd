// The monthly report, one section at a time: document 02, request 10.
#![tactic(auto)]

ghost use Rattle.std.specs.Prelude.{◌≡◌, cond, ◌≤◌, eqb, length};
ghost use Rattle.stackmap.specs.Layout.{stack_size_unknown};
ghost use Rattle.stackmap.specs.Section.{constants_at};
ghost use Rattle.report_records.specs.Counts.{as_totals};
ghost use Rattle.report.specs.Totals.{plus, one, of_refused, contribution, add_section};
ghost use Rattle.report_totals.specs.Sizes.{one_section, function_totals, Stacked, Tallied};

use report::{Kinds, Reported, Totals};
use report_records::Counts;
use stackmap::layout;
use stackmap_tables::tables;

const STACK_SIZE_UNKNOWN: u64 = 18446744073709551615;

// The sum of the known stack sizes and the number of the unknown ones.
#[derive(Clone, Copy)]
pub struct Stacks {
    pub known: u64,
    pub unknown: u64,
}

// What a stack size adds to the sum.
fn known_size(size: u64) -> u64
    ensures { result ≡ cond (eqb size stack_size_unknown) 0 size }
{
    if size == STACK_SIZE_UNKNOWN {
        return 0;
    }
    size
}

// What it adds to the number of unknown ones.
fn unknown_size(size: u64) -> u64
    ensures { (result ≡ one (eqb size stack_size_unknown)) × (result ≤ 1) }
{
    if size == STACK_SIZE_UNKNOWN {
        return 1;
    }
    0
}

// The stack sizes of all functions; nothing where the sum would pass 2^64 - 1.
fn stack_sizes(s: &[u8]) -> Option<Stacks>
    requires { constants_at s.now ≤ length s.now }
    ensures { Stacked s.now result }
{
    let step = layout::function_size(tables::is_old(s));
    let functions = wire::u32_at(s, layout::NUM_FUNCTIONS_AT) as usize;
    let mut known: u64 = 0;
    let mut unknown: u64 = 0;
    for i in 0..functions {
        let p = layout::HEADER_SIZE + step * i;
        let size = wire::u64_at(s, p + layout::STACK_SIZE_AT);
        known = known.checked_add(known_size(size))?;
        unknown += unknown_size(size);
    }
    Some(Stacks { known, unknown })
}

fn refused_totals() -> Totals
    ensures { result ≡ of_refused }
{
    Totals {
        sections: 1,
        refused: 1,
        functions: 0,
        records: 0,
        statepoints: 0,
        pairs: 0,
        kinds: Kinds {
            register: 0,
            direct: 0,
            indirect: 0,
            constant: 0,
            pool: 0,
        },
        stack: 0,
        unknown: 0,
    }
}

fn accepted_totals(functions: u64, stacks: Stacks, counts: Counts) -> Totals
    ensures { result ≡ plus one_section (plus (function_totals functions stacks.known stacks.unknown) (as_totals counts)) }
{
    let kinds = counts.kinds;
    Totals {
        sections: 1,
        refused: 0,
        functions,
        records: counts.records,
        statepoints: counts.statepoints,
        pairs: counts.pairs,
        kinds,
        stack: stacks.known,
        unknown: stacks.unknown,
    }
}

// What a section adds: one walk checks its records and counts. Nothing where its own stack sizes pass 2^64 - 1.
fn tally(section: &[u8]) -> Option<Totals>
    ensures { Tallied (contribution section.now) result }
{
    match tables::begin(section) {
        Err(_) => Some(refused_totals()),
        Ok(at) => {
            let walked = report_records::records(section, at);
            if !walked.accepted {
                return Some(refused_totals());
            }
            let stacks = stack_sizes(section)?;
            let functions = wire::u32_at(section, layout::NUM_FUNCTIONS_AT) as u64;
            Some(accepted_totals(functions, stacks, walked.counts))
        }
    }
}

// One section more: the new totals, or 34 at its position and the totals as they were.
pub fn add(section: &[u8], totals: Totals) -> Reported
    ensures { result ≡ add_section section.now totals }
{
    match tally(section) {
        Some(more) => report_sums::joined_at(totals.sections, totals, more),
        None => Reported {
            number: report_sums::PASSED,
            place: totals.sections,
            totals,
        },
    }
}
