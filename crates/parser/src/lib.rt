// What a listing comes to: refused, or the section that is to be built of it. Both are found over the listing's items alone:
// the built section's refusals are said of the items, with places in the section. Places are counted from the first byte after
// the version's item.
#![tactic(auto)]

ghost use Rattle.parser.specs.Outcome.{Parsed};

use listing::numbers;
use parser_items::{Plan, version};
use refusals::{Cause, Refusal};

// What there is to write, and the length of the section.
#[derive(Clone, Copy)]
pub struct SectionPlan {
    pub plan: Plan,
    pub size: usize,
}

// The refusals of the listing, and then of the section that it is to become.
pub fn parse(l: &[u8]) -> Result<SectionPlan, Refusal>
    ensures { Parsed l.now result }
{
    if l.len() > numbers::LISTING_MOST {
        return Err(Refusal(Cause::WrongLength, 0));
    }
    let old = version::listed_old(l);
    let start = listing::version_length(old);
    let items = &l[start..];
    let drafted = parser_draft::items(items, old);
    let plan = drafted.map_err(|Refusal(cause, place)| Refusal(cause, start + place))?;
    let size = parser_walk::section(items, plan)?;
    Ok(SectionPlan { plan, size })
}
