// The settings of the edition that a restore names, document 02, request 9: 31 where it is unknown or retired.
#![tactic(auto)]

ghost use Rattle.std.specs.Prelude.{◌≡◌, ◌≤◌};
ghost use Rattle.moves.specs.Limits.{pairs_most};
ghost use Rattle.relocate.specs.Restore as restore;
ghost use Rattle.editions_settings.specs.Machine.{machine_of};
ghost use Rattle.editions_settings.specs.Under.{settings_of};
ghost use Rattle.editions_settings.specs.Code.{unnamed, Names};

use editions::Store;
use relocate::{Machine, Settings};

const UNKNOWN_EDITION: u8 = 31;

// A refusal's number, 31, or 0 and the edition's settings.
// Kept: the contract of `named`, Names, speaks of the number and the settings, and so do the laws of those who call it.
#[derive(Clone, Copy)]
pub struct NamedSettings {
    pub number: u8,
    pub settings: Settings,
}

// A machine that is known, by its number.
pub fn machine_of(number: u64) -> Machine
    ensures { result ≡ machine_of number }
{
    match number {
        0 => Machine::Amd64,
        _ => Machine::Aarch64,
    }
}

// An edition's numbers as the settings of a restore.
#[tactic(auto, unfolding(crate::specs::Under::settings_of))]
fn settings_of(kept: editions::Settings) -> Settings
    ensures { result ≡ settings_of kept }
{
    Settings {
        most: kept.most as usize,
        version1: kept.version1 == 1,
        version3: kept.version3 == 1,
        machine: machine_of(kept.machine),
    }
}

// Settings that allow everything to a frame of this machine.
pub fn everything(machine: Machine) -> Settings
    ensures { (result ≡ restore.everything machine) × (result.most ≤ pairs_most) }
{
    Settings {
        most: moves::PAIRS_MOST,
        machine,
        version1: true,
        version3: true,
    }
}

// 31, beside settings that nothing reads.
fn unnamed() -> NamedSettings
    ensures { result ≡ unnamed }
{
    NamedSettings {
        number: UNKNOWN_EDITION,
        settings: everything(Machine::Amd64),
    }
}

// The settings of the edition that a restore names: 31, tested first.
pub fn named(store: Store, edition: u64) -> NamedSettings
    ensures { Names store edition result }
{
    let read = editions_store::read(store, edition);
    if read.number != 0 {
        return unnamed();
    }
    NamedSettings {
        number: 0,
        settings: settings_of(read.settings),
    }
}
