// Listing to section. Nothing is written before the answer is known, and no second buffer is needed.
#![tactic(auto)]

ghost use Rattle.std.specs.Prelude.{◌≡◌};
ghost use Rattle.listing.specs.Answers.{Answers};
ghost use Rattle.listing.specs.Listing.{to_section};
ghost use Rattle.builder.specs.Put.{as_converted};

use listing::Conversion;
use parser::SectionPlan;
use refusals::{Cause, Refusal};

mod put;

// The conversion of a listing to a section: 1, 22, 23, 28, then the refusal that the built section would get, at its place
// there, then 24; or the length written. Output beyond it is unchanged.
pub fn to_section(listing: &[u8], out: &mut [u8]) -> Conversion
    ensures { Answers result out.new (to_section listing.now out.old) }
{
    match build(listing, out) {
        Ok(written) => Conversion {
            number: 0,
            place: 0,
            written,
        },
        Err(Refusal(cause, place)) => Conversion {
            number: cause.number(),
            place,
            written: 0,
        },
    }
}

// The same by name of the refusal.
fn build(listing: &[u8], out: &mut [u8]) -> Result<usize, Refusal>
    ensures { to_section listing.now out.old ≡ as_converted result out.new }
{
    let SectionPlan { plan, size } = parser::parse(listing)?;
    if out.len() < size {
        return Err(Refusal(Cause::TooShort, 0));
    }
    let start = listing::version_length(plan.old);
    put::section(&listing[start..], plan, out);
    Ok(size)
}
