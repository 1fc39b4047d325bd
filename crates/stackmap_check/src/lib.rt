// The check of a whole section, and the walk over its records that every question shares.
#![tactic(auto)]

ghost use Rattle.std.specs.Prelude.{◌≡◌};
ghost use Rattle.stackmap.specs.Verdict.{verdict};
ghost use Rattle.stackmap.specs.Check.{section_check};

use refusals::{Cause, Refusal};
use stackmap_tables::tables;

pub mod walk;

// The check of a whole section: refusals 1 to 9 in document 01's order, or valid up to its length.
pub fn check(s: &[u8]) -> Result<usize, Refusal>
    ensures { verdict result ≡ section_check s.now }
{
    let at = tables::begin(s)?;
    let end = walk::all_records(s, at)?;
    if end == s.len() {
        Ok(end)
    } else {
        Err(Refusal(Cause::BytesAfter, end))
    }
}
