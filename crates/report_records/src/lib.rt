// What the records of a section add to a report, counted in the walk that checks them.
// No entry point: each function requires what the check before it has tested.
#![tactic(auto)]

ghost use Rattle.std.specs.Prelude.{◌≡◌, true, false, ◌+◌, ◌*◌, ◌^◌, ◌≤◌, length, drop, eqb};
ghost use Rattle.stackmap.specs.Layout.{location_size};
ghost use Rattle.stackmap.specs.Fields.{many};
ghost use Rattle.stackmap.specs.Section.{is_old, records_at, record_length, read_location, entries};
ghost use Rattle.stackmap.specs.Check.{walk_check};
ghost use Rattle.stackmap.specs.Walk.{Walkable};
ghost use Rattle.questions.specs.Questions.{ask};
ghost use Rattle.relocate.specs.Code.{record_of, RecordInside};
ghost use Rattle.report.specs.Totals.{total_most, plus_kinds, one, of_kind, kinds_of, of_record, of_entry, total};
ghost use Rattle.report.specs.Bounds.{KindsMost};
ghost use Rattle.report_records.specs.Counts.{as_totals, grown, Most};

use relocate_pairs::statepoint;
use report::Kinds;
use stackmap::layout;
use stackmap_tables::shape;

// Records, the statepoints among them, their pairs, and the locations of each kind.
#[derive(Clone, Copy)]
pub struct Counts {
    pub records: u64,
    pub statepoints: u64,
    pub pairs: u64,
    pub kinds: Kinds,
}

// Whether all records of a section are valid and nothing follows them, and what they add.
// Kept: a flag beside the counts, and no Option: the contract of `records` names both.
#[derive(Clone, Copy)]
pub struct Walked {
    pub accepted: bool,
    pub counts: Counts,
}

// 1 where the kind is `k`.
fn hit(kind: u8, k: u8) -> u64
    ensures { (result ≡ one (eqb kind k)) × (result ≤ 1) }
{
    u64::from(kind == k)
}

// One location more.
fn with_kind(kinds: Kinds, kind: u8) -> Kinds
    requires { KindsMost (2 ^ 62) kinds }
    ensures { result ≡ plus_kinds kinds (of_kind kind) }
{
    Kinds {
        register: kinds.register + hit(kind, 1),
        direct: kinds.direct + hit(kind, 2),
        indirect: kinds.indirect + hit(kind, 3),
        constant: kinds.constant + hit(kind, 4),
        pool: kinds.pool + hit(kind, 5),
    }
}

// The locations of the record at the start of `s`, of which it has `count`, by kind.
fn kinds_of(s: &[u8], old: bool, count: usize) -> Kinds
    requires { 16 + location_size old * count ≤ length s.now }
    ensures { (result ≡ kinds_of (many (read_location old) (location_size old) count s.now 16)) × KindsMost count result }
{
    let step = layout::location_size(old);
    let mut kinds = Kinds {
        register: 0,
        direct: 0,
        indirect: 0,
        constant: 0,
        pool: 0,
    };
    for i in 0..count {
        let p = layout::RECORD_HEAD_SIZE + step * i;
        kinds = with_kind(kinds, s[p]);
    }
    kinds
}

// What the record at `at` adds.
fn record_counts(s: &[u8], old: bool, at: usize) -> Counts
    requires { RecordInside s.now at × (old ≡ is_old s.now) }
    ensures { (as_totals result ≡ of_record (record_of s.now at)) × Most (record_length (is_old s.now) (drop at s.now)) result }
{
    let shape = shape::shape_at(s, at);
    let kinds = kinds_of(&s[at..], old, shape.locations);
    if statepoint::is_statepoint(s, at) {
        let pairs = statepoint::pairs_of(s, at);
        return Counts {
            records: 1,
            statepoints: 1,
            pairs: pairs.count as u64,
            kinds,
        };
    }
    Counts {
        records: 1,
        statepoints: 0,
        pairs: 0,
        kinds,
    }
}

fn sum(a: Counts, b: Counts) -> Counts
    requires { Most total_most (grown a b) }
    ensures { result ≡ grown a b }
{
    let kinds = report_sums::kinds_sum(a.kinds, b.kinds);
    Counts {
        records: a.records + b.records,
        statepoints: a.statepoints + b.statepoints,
        pairs: a.pairs + b.pairs,
        kinds,
    }
}

// All records from the first one's byte: one walk checks them and counts.
pub fn records(s: &[u8], at: usize) -> Walked
    requires { Walkable s.now × (at ≡ records_at s.now) × (at ≤ length s.now) }
    ensures { (result.accepted ≡ ask (λ n p. false) true (walk_check s.now)) × (result.accepted ≡ true → as_totals result.counts ≡ total of_entry (entries s.now)) }
{
    let mut place = report_walker::first(s, at);
    let mut counts = Counts {
        records: 0,
        statepoints: 0,
        pairs: 0,
        kinds: Kinds {
            register: 0,
            direct: 0,
            indirect: 0,
            constant: 0,
            pool: 0,
        },
    };
    loop {
        match report_walker::next_from(s, place) {
            Err(_) => {
                return Walked {
                    accepted: false,
                    counts,
                };
            }
            Ok(None) => {
                return Walked {
                    accepted: place.at == s.len(),
                    counts,
                };
            }
            Ok(Some(after)) => {
                counts = sum(counts, record_counts(s, place.old, place.at));
                place = after;
            }
        }
    }
}
