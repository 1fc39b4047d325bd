// Sums of totals, and 34 where one of them would pass 2^64 - 1: document 02, request 10.
// `kinds_sum` and `sum` are no entry points: they require that nothing passes.
#![tactic(auto)]

ghost use Rattle.std.specs.Prelude.{◌≡◌, ◌+◌, leb};
ghost use Rattle.report.specs.Totals.{total_most, plus_kinds, plus, kinds_fit, fits, joined_at, joined};
ghost use Rattle.report.specs.Bounds.{KindsMost, TotalsMost};

use report::{Kinds, Reported, Totals};

// The refusal where a sum would pass it.
pub const PASSED: u64 = 34;

// Whether the sum of two numbers is below 2^64.
fn fit(a: u64, b: u64) -> bool
    ensures { result ≡ leb (a + b) total_most }
{
    b <= u64::MAX - a
}

// `&` has no branch, here and below.
#[tactic(auto, unfolding(report::specs::Totals::kinds_fit, report::specs::Totals::plus_kinds))]
fn kinds_fit(a: Kinds, b: Kinds) -> bool
    ensures { result ≡ kinds_fit (plus_kinds a b) }
{
    fit(a.register, b.register)
        & fit(a.direct, b.direct)
        & fit(a.indirect, b.indirect)
        & fit(a.constant, b.constant)
        & fit(a.pool, b.pool)
}

#[tactic(auto, unfolding(report::specs::Totals::fits, report::specs::Totals::plus))]
fn all_fit(a: Totals, b: Totals) -> bool
    ensures { result ≡ fits (plus a b) }
{
    fit(a.sections, b.sections)
        & fit(a.refused, b.refused)
        & fit(a.functions, b.functions)
        & fit(a.records, b.records)
        & fit(a.statepoints, b.statepoints)
        & fit(a.pairs, b.pairs)
        & kinds_fit(a.kinds, b.kinds)
        & fit(a.stack, b.stack)
        & fit(a.unknown, b.unknown)
}

#[tactic(auto, unfolding(report::specs::Totals::plus_kinds))]
pub fn kinds_sum(a: Kinds, b: Kinds) -> Kinds
    requires { KindsMost total_most (plus_kinds a b) }
    ensures { result ≡ plus_kinds a b }
{
    Kinds {
        register: a.register + b.register,
        direct: a.direct + b.direct,
        indirect: a.indirect + b.indirect,
        constant: a.constant + b.constant,
        pool: a.pool + b.pool,
    }
}

#[tactic(auto, unfolding(report::specs::Totals::plus))]
fn sum(a: Totals, b: Totals) -> Totals
    requires { TotalsMost total_most (plus a b) }
    ensures { result ≡ plus a b }
{
    let kinds = kinds_sum(a.kinds, b.kinds);
    Totals {
        sections: a.sections + b.sections,
        refused: a.refused + b.refused,
        functions: a.functions + b.functions,
        records: a.records + b.records,
        statepoints: a.statepoints + b.statepoints,
        pairs: a.pairs + b.pairs,
        kinds,
        stack: a.stack + b.stack,
        unknown: a.unknown + b.unknown,
    }
}

// The sums, or 34 at `place` and the totals `a` as they were.
#[tactic(auto, using(report::proofs::Plus::fits_each), unfolding(report::specs::Totals::joined_at))]
pub fn joined_at(place: u64, a: Totals, b: Totals) -> Reported
    ensures { result ≡ joined_at place a b }
{
    if all_fit(a, b) {
        return Reported {
            number: 0,
            place: 0,
            totals: sum(a, b),
        };
    }
    Reported {
        number: PASSED,
        place,
        totals: a,
    }
}

// The report of all sections of two reports, or 34 at 0.
#[tactic(auto, unfolding(report::specs::Totals::joined))]
pub fn join(a: Totals, b: Totals) -> Reported
    ensures { result ≡ joined a b }
{
    joined_at(0, a, b)
}
