// Restores by the edition that they name, with the machine as a number: the definitions, and the tests that come before a restore's own.
#![tactic(auto)]

ghost use Rattle.stackmap.specs.Verdict.{verdict};
ghost use Rattle.std.specs.Prelude.{◌≡◌};
ghost use Rattle.questions.specs.Questions.{ask};
ghost use Rattle.restores.specs.Code.{refused_at, Begins};

use editions::Store;
use editions_settings as by_number;
use refusals::Refusal;
use relocate::{Machine, Settings};

// AArch64, the machine with the greatest number.
pub const LAST_MACHINE: u64 = 1;

const NOT_ALLOWED: u8 = 33;

const UNKNOWN_EDITION: u8 = 31;

// Whether the restore goes on, with the edition's settings and the machine; or a refusal's number and place.
#[derive(Clone, Copy)]
pub struct Begun {
    pub passed: bool,
    pub number: u8,
    pub place: usize,
    pub settings: Settings,
    pub machine: Machine,
}

// A refusal, beside settings and a machine that nothing reads.
fn refused(number: u8, place: usize) -> Begun
    ensures { result ≡ refused_at number place }
{
    Begun {
        passed: false,
        number,
        place,
        settings: by_number::everything(Machine::Amd64),
        machine: Machine::Amd64,
    }
}

// A number that is no machine's: the section's refusal, or 33.
fn unknown_machine(v: Result<usize, Refusal>) -> Begun
    ensures { result ≡ ask refused_at (refused_at 33 0) (verdict v) }
{
    match v {
        Ok(_) => refused(NOT_ALLOWED, 0),
        Err(Refusal(cause, place)) => refused(cause.number(), place),
    }
}

// 31; then, for a number that is no machine's, the section's refusal or 33.
pub fn begin(store: Store, edition: u64, machine: u64, section: &[u8]) -> Begun
    ensures { Begins store edition machine section.now result }
{
    let named = by_number::named(store, edition);
    if named.number != 0 {
        return refused(UNKNOWN_EDITION, 0);
    }
    if machine > LAST_MACHINE {
        return unknown_machine(stackmap_check::check(section));
    }
    let settings = named.settings;
    Begun {
        passed: true,
        number: 0,
        place: 0,
        settings,
        machine: by_number::machine_of(machine),
    }
}
