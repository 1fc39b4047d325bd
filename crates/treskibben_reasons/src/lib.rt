// What crosses the C boundary of the reasons: a reason as a struct of numbers.
#![tactic(auto)]

ghost use Rattle.stackmap.specs.Verdict.{verdict};
ghost use Rattle.std.specs.Prelude.{◌≡◌};
ghost use Rattle.moves.specs.Slots.{memory, register};
ghost use Rattle.explain.specs.Explain.{slot_of};
ghost use Rattle.treskibben_reasons.specs.Answer.{reason_answer, unknown_machine};

use explain::{Asked, Reason};
use refusals::Refusal;

// Kept: number and place in each answer are the C interface.
// The reason's number, 0 unlisted, 1 only a base, 2 null base, 3 moved, 4 refused; of refused its number and place; of moved the lowest pair that
// derives the slot, the old base and the new base; 0 elsewhere.
#[repr(C)]
#[derive(Clone, Copy)]
pub struct ReasonAnswer {
    pub reason: u64,
    pub number: u64,
    pub place: u64,
    pub pair: u64,
    pub old: u64,
    pub new: u64,
}

// A reason that has no more to tell.
fn plain(reason: u64) -> ReasonAnswer
    ensures { result ≡ record { reason = reason; number = 0; place = 0; pair = 0; old = 0; new = 0 } }
{
    ReasonAnswer {
        reason,
        number: 0,
        place: 0,
        pair: 0,
        old: 0,
        new: 0,
    }
}

pub fn reason_answer(why: Reason) -> ReasonAnswer
    ensures { result ≡ reason_answer why }
{
    match why {
        Reason::Unlisted => plain(0),
        Reason::OnlyBase => plain(1),
        Reason::NullBase => plain(2),
        Reason::Moved(pair, old, new) => ReasonAnswer {
            reason: 3,
            number: 0,
            place: 0,
            pair: pair as u64,
            old,
            new,
        },
        Reason::Refused(number, place) => ReasonAnswer {
            reason: 4,
            number: number as u64,
            place: place as u64,
            pair: 0,
            old: 0,
            new: 0,
        },
    }
}

// For a machine that is not known: the section's refusal, or 33.
pub fn unknown_machine(v: Result<usize, Refusal>) -> Reason
    ensures { result ≡ unknown_machine (verdict v) }
{
    match v {
        Ok(_) => Reason::Refused(33, 0),
        Err(Refusal(cause, place)) => Reason::Refused(cause.number(), place),
    }
}

// What is asked about: the slot that begins at an address.
pub fn at_address(address: u64) -> Asked
    ensures { slot_of result ≡ memory address }
{
    Asked::Address(address)
}

// The same of a register, by its DWARF number.
pub fn of_register(number: u64) -> Asked
    ensures { slot_of result ≡ register number }
{
    Asked::Register(number)
}
