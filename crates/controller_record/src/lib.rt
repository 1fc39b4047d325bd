// One record against the profile of the bench controller.
// No entry point: it requires a record that stands there.
#![tactic(auto)]

ghost use Rattle.std.specs.Prelude.{◌≡◌, true, ◌&&◌, leb};
ghost use Rattle.stackmap.specs.Section as section;
ghost use Rattle.relocate.specs.Statepoint.{is_statepoint};
ghost use Rattle.relocate.specs.Code.{record_of, pool_of, RecordInside};
ghost use Rattle.controller.specs.Profile.{pointers_most, passes18, pointer_count, above};
ghost use Rattle.controller.specs.Profile as spec;
ghost use Rattle.controller.specs.Kept.{before_of};

use relocate::Machine;
use relocate_pairs::{pairs, statepoint};

const RECORDS_MOST: usize = 64;

const POINTERS_MOST: usize = 16;

// Whether the address of the record `number` is above the one before it, `last`, if there is one.
fn rises(number: usize, last: u64, address: u64) -> bool
    ensures { result ≡ above (before_of number last) address }
{
    if number == 0 {
        return true;
    }
    last < address
}

// Whether the pairs of the statepoint at `at` pass 18 on AMD64, and are at most 16 pointers.
fn pairs_keep(s: &[u8], at: usize) -> bool
    requires { RecordInside s.now at × (is_statepoint (record_of s.now at) ≡ true) }
    ensures { result ≡ (passes18 (pool_of s.now) (record_of s.now at) && leb (pointer_count (pool_of s.now) (record_of s.now at)) pointers_most) }
{
    let found = statepoint::pairs_of(s, at);
    let count = found.count;
    let forms = pairs::check_forms(Machine::Amd64, false, s, at, found.start, count);
    if forms.wrong < count {
        return false;
    }
    forms.pointers <= POINTERS_MOST
}

// Whether the record at `at` is a statepoint whose pairs are so.
fn body_keeps(s: &[u8], at: usize) -> bool
    requires { RecordInside s.now at }
    ensures { result ≡ (is_statepoint (record_of s.now at) && (passes18 (pool_of s.now) (record_of s.now at) && leb (pointer_count (pool_of s.now) (record_of s.now at)) pointers_most)) }
{
    if statepoint::is_statepoint(s, at) {
        return pairs_keep(s, at);
    }
    false
}

// Whether the record `number` at `at`, with this address, keeps the profile; `last` is the address of the record before it, if there is one.
pub fn keeps(s: &[u8], at: usize, number: usize, last: u64, address: u64) -> bool
    requires { RecordInside s.now at }
    ensures { (e : section.Entry) → e.number ≡ number → section.address e ≡ address → e.body ≡ record_of s.now at
        → result ≡ spec.keeps (pool_of s.now) (before_of number last) e }
{
    if number >= RECORDS_MOST {
        return false;
    }
    if rises(number, last, address) {
        return body_keeps(s, at);
    }
    false
}
