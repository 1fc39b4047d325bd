// The profile of the bench controller over all records of a section (refusal 50).
// `first_breach` and `of_accepted` are no entry points: they require an accepted section.
#![tactic(auto)]

ghost use Rattle.std.specs.Prelude.{◌≡◌, false, length};
ghost use Rattle.std.proofs.Math.Option.{none};
ghost use Rattle.stackmap.specs.Verdict.{verdict};
ghost use Rattle.stackmap.specs.Section.{is_old, entries};
ghost use Rattle.stackmap.specs.Check.{Accepted};
ghost use Rattle.relocate.specs.Code.{pool_of};
ghost use Rattle.controller.specs.Profile.{first_breach, at_breach, profile_check};

use refusals::{Cause, Refusal};
use relocate::Machine;
use stackmap::{Turn, layout};
use stackmap_check::walk;
use stackmap_tables::{shape, tables};

// 50 at the first record with a breach, of an accepted section of version 3. The records are not checked again, and no more than 65 are
// looked at, for the record with the number 64 is a breach.
fn first_breach(s: &[u8]) -> Result<usize, Refusal>
    requires { Accepted s.now × (is_old s.now ≡ false) }
    ensures { verdict result ≡ at_breach (length s.now) (first_breach (pool_of s.now) none (entries s.now)) }
{
    let count = wire::u32_at(s, layout::NUM_RECORDS_AT) as usize;
    let mut p = index_rows::first_record(s);
    let mut turn = walk::start(s, false);
    let mut last: u64 = 0;
    for number in 0..count {
        let t = walk::owner(s, turn);
        let next = t.next;
        let left = t.left;
        let address = index_rows::address_at(s, next - 1, p);
        if controller_record::keeps(s, p, number, last, address) {
            let shape = shape::shape_at(s, p);
            p += shape.size;
        } else {
            return Err(Refusal(Cause::OutsideProfile, number));
        }
        last = address;
        turn = Turn {
            next,
            left: left - 1,
        };
    }
    Ok(s.len())
}

// 50 of an accepted section: at 0 for the version or the machine, and then at the first record with a breach.
pub fn of_accepted(s: &[u8], machine: Machine) -> Result<usize, Refusal>
    requires { Accepted s.now }
    ensures { verdict result ≡ profile_check machine s.now }
{
    if tables::is_old(s) {
        return Err(Refusal(Cause::OutsideProfile, 0));
    }
    match machine {
        Machine::Amd64 => first_breach(s),
        Machine::Aarch64 => Err(Refusal(Cause::OutsideProfile, 0)),
    }
}

// The section's own refusals, and then 50.
pub fn check(s: &[u8], machine: Machine) -> Result<usize, Refusal>
    ensures { verdict result ≡ profile_check machine s.now }
{
    stackmap_check::check(s)?;
    of_accepted(s, machine)
}
