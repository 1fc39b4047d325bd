// Tests of the items of an array, one after another: bytes below a limit, for 40, and ranges that end within another array, for 39.
// No entry points: they require that the items are inside, which 38 has shown.
#![tactic(auto)]

ghost use Rattle.std.specs.Prelude.{◌≡◌, ◌&&◌, ℕ, ◌+◌, ◌*◌, ◌≤◌, ◌<◌, ltb, length, get_or};
ghost use Rattle.flat.specs.Layout.{frame_size, record_size};
ghost use Rattle.flat.specs.Steps.{Testing};
ghost use Rattle.flat.specs.Places.{frame_inside, record_inside, along, clear};
ghost use Rattle.flat_along.specs.Fours.{FourBelow};

use flat::{layout, offsets};

// The bytes at p and at one, two and three steps after it, bit by bit together: where that is below a limit, each of them is.
fn four(s: &[u8], p: usize, step: usize) -> u8
    requires { p + step + step + step < length s.now }
    ensures { (limit : ℕ) → result < limit → FourBelow s.now limit p step }
{
    s[p] | s[p + step] | (s[p + step + step] | s[p + step + step + step])
}

// A quick look: how many of n bytes, by fours, are below a limit, up to the first four that are not.
fn fours_below(s: &[u8], limit: u8, at: usize, step: usize, n: usize) -> usize
    requires { (0 < step) × (at + step * n < length s.now + step) }
    ensures { Testing (λ k. ltb (get_or s.now (at + step * k) 0) limit) n result }
{
    for q in 0..n / 4 {
        let i = 4 * q;
        if four(s, at + step * i, step) >= limit {
            return i;
        }
    }
    n / 4 * 4
}

// Whether n bytes, each a step after the one before, are below a limit.
pub fn each_below(s: &[u8], limit: u8, at: usize, step: usize, n: usize) -> bool
    requires { (0 < step) × (at + step * n < length s.now + step) }
    ensures { result ≡ clear s.now limit at step n }
{
    let looked = fours_below(s, limit, at, step, n);
    (looked..n).all(|k| s[at + step * k] < limit)
}

// Whether n pairs of bytes, each a step after the one before, are below two limits.
pub fn pairs_below(s: &[u8], low: u8, high: u8, at: usize, step: usize, n: usize) -> bool
    requires { (1 < step) × (at + 1 + step * n < length s.now + step) }
    ensures { result ≡ (clear s.now low at step n && clear s.now high (at + 1) step n) }
{
    (0..n).all(|k| {
        let p = at + step * k;
        s[p] < low && s[p + 1] < high
    })
}

// Whether the ranges of n frames end within the records.
pub fn frames_inside(s: &[u8], frames: usize, n: usize, records: usize) -> bool
    requires { frames + frame_size * n ≤ length s.now }
    ensures { result ≡ along (frame_inside s.now records) frames frame_size n }
{
    (0..n).all(|k| {
        let at = frames + layout::FRAME_SIZE * k;
        offsets::range_end(
            s,
            at + layout::RECORD_INDEX_AT,
            at + layout::RECORD_COUNT_AT,
        ) <= records
    })
}

fn record_inside(s: &[u8], at: usize, locations: usize, outs: usize) -> bool
    requires { at + record_size ≤ length s.now }
    ensures { result ≡ record_inside s.now locations outs at }
{
    offsets::range_end(
        s,
        at + layout::LOCATION_INDEX_AT,
        at + layout::LOCATION_COUNT_AT,
    ) <= locations
        && offsets::range_end(
            s,
            at + layout::LIVE_OUT_INDEX_AT,
            at + layout::LIVE_OUT_COUNT_AT,
        ) <= outs
}

// Whether the ranges of n records end within the locations and live-outs.
pub fn records_inside(s: &[u8], records: usize, n: usize, locations: usize, outs: usize) -> bool
    requires { records + record_size * n ≤ length s.now }
    ensures { result ≡ along (record_inside s.now locations outs) records record_size n }
{
    (0..n).all(|k| record_inside(s, records + layout::RECORD_SIZE * k, locations, outs))
}
