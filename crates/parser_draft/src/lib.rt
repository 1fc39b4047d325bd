// What the items of a listing come to, that is all of it after the version's item: 22, 23 and 28, or what is to be written.
// No entry point: it requires a listing whose length 1 has tested.
#![tactic(auto)]

ghost use Rattle.std.specs.Prelude.{◌≤◌, length};
ghost use Rattle.listing.specs.Layout.{listing_most};
ghost use Rattle.parser_draft.specs.Drafted.{Drafted};

use listing::numbers;
use parser_items::{Plan, count};
use refusals::Refusal;

mod grammar;
mod narrow;

// The items of a listing, of version 1 where `old` is true: what there is to write, or the refusal, at its place among the items.
pub fn items(l: &[u8], old: bool) -> Result<Plan, Refusal>
    requires { length l.now ≤ listing_most }
    ensures { Drafted l.now old result }
{
    let count::Tables {
        functions,
        constants,
    } = count::listed_tables(l);
    let from = numbers::FUNCTION_ITEM_SIZE * functions + numbers::CONSTANT_ITEM_SIZE * constants;
    let survey = count::survey_records(l, old, from);
    grammar::items(l, from, survey)?;
    let plan = Plan {
        old,
        functions,
        constants,
        records: survey.records,
        bytes: survey.size,
    };
    narrow::items(l, plan, from)?;
    Ok(plan)
}
