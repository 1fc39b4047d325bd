// The grammar of a listing: refusals 22 and 23.
// No entry point: it requires the counts that the survey has made of this listing.
ghost use Rattle.std.specs.Prelude.{◌≡◌, ◌≤◌, length};
ghost use Rattle.stackmap.specs.Verdict.{verdict};
ghost use Rattle.parser_items.specs.Survey.{stop_from, Passed, Ends};
ghost use Rattle.parser_items.specs.Grammar.{end_check, grammar_check, Inside};

use listing::numbers;
use parser_items::{count, shape};
use refusals::{Cause, Refusal};

// Where the records from `from` on stop.
fn records_stop(l: &[u8], from: usize) -> usize
    requires { from ≤ length l.now }
    ensures { (result ≡ stop_from l.now from) × (result ≤ length l.now) }
{
    let mut at = from;
    while l.len() - at >= numbers::RECORD_ITEM_SIZE && l[at] == numbers::RECORD_KIND {
        at = shape::record_shape(l, at).stop;
    }
    at
}

// One end stands where the items stop, and nothing after it.
fn end(l: &[u8], stop: usize) -> Result<usize, Refusal>
    requires { stop ≤ length l.now }
    ensures { (verdict result ≡ end_check l.now stop) × Inside (length l.now) (verdict result) }
{
    if l.len() - stop < numbers::END_ITEM_SIZE || l[stop] != numbers::END_KIND {
        return Err(Refusal(Cause::WrongItem, stop));
    }
    if stop + numbers::END_ITEM_SIZE != l.len() {
        return Err(Refusal(Cause::WrongItem, stop + numbers::END_ITEM_SIZE));
    }
    Ok(l.len())
}

// The items of a listing whose records begin at `from`, by what a pass over the records found.
pub fn items(l: &[u8], from: usize, survey: count::Survey) -> Result<usize, Refusal>
    requires { Passed l.now from survey.records survey.stop × Ends l.now survey.stop survey.crowded }
    ensures { (verdict result ≡ grammar_check l.now from) × Inside (length l.now) (verdict result) }
{
    let stop = survey.stop;
    if survey.crowded {
        end(l, records_stop(l, stop))?;
        return Err(Refusal(Cause::TooManyItems, stop));
    }
    end(l, stop)
}
