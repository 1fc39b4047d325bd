// Quick looks at the record at a place of the section, of either version. They give where it ends, if it is right, and else say nothing:
// `record` then names what is wrong. `plain` answers for up to fifteen locations without a ConstIndex and for no live-outs, and calls
// nothing that is not compiled into it, so that what it needs stays in registers. `other` answers for the rest.
// No entry point: it requires a place inside the section, which the walk has shown.
ghost use Rattle.std.specs.Prelude.{◌≡◌, true, false, ℕ, ◌+◌, ◌*◌, ◌-◌, ◌%◌, ◌^◌, ◌≤◌, ◌<◌, length, drop};
ghost use Rattle.wire.specs.Word.{word};
ghost use Rattle.stackmap.specs.Verdict.{Valid};
ghost use Rattle.glance.specs.Look.{Rights};
ghost use Rattle.stackmap.specs.Layout.{negative_from, address_most, location_size, locations_padding};
ghost use Rattle.stackmap.specs.Record.{record_check};
ghost use Rattle.stackmap_quick.specs.Quick.{Ending, Begun, Closed};

use stackmap::layout;

// An index into the pool is right below this number.
fn index_limit(constants: u32) -> u32
    ensures { (result ≤ constants) × (result ≤ negative_from) }
{
    if constants < layout::NEGATIVE_FROM {
        return constants;
    }
    layout::NEGATIVE_FROM
}

// Whether a padding of no bytes or of four is zero. The four bytes before its end are read in any case, so that its size costs no branch.
fn padding_right(s: &[u8], at: usize, count: usize) -> bool
    requires { (at + count ≤ length s.now) × (4 ≤ at) }
    ensures { result ≡ true → word count s.now at ≡ 0 }
{
    let x = wire::u32_at(s, at + count - 4);
    if count == 4 {
        return x == 0;
    }
    count == 0
}

// Where a record ends that has live-outs, and whose locations, with their padding, end at `end`.
fn after_live_outs(s: &[u8], end: usize) -> usize
    requires { end + 8 ≤ length s.now }
    ensures { 0 < result → Ending s.now end result }
{
    let outs = wire::u16_at(s, end + layout::LIVE_OUTS_HEAD_ZEROS) as usize;
    let last = end + layout::LIVE_OUTS_HEAD_SIZE + layout::LIVE_OUT_SIZE * outs;
    let padding = (outs + 1) % 2 * 4;
    if s.len() < last + padding {
        return 0;
    }
    if wire::u16_at(s, end) != 0 {
        return 0;
    }
    if padding_right(s, last, padding) {
        if glance_live_outs::live_outs(s, end + layout::LIVE_OUTS_HEAD_SIZE, outs) {
            return last + padding;
        }
    }
    0
}

// Where a record ends whose locations end at `pad` and have so much padding, if there are no live-outs; else 1, or 0 where they are not
// inside. (With this test the answer stays a branch, which is
// foretold, so that the next record doesn't wait for these bytes.)
fn no_live_outs(s: &[u8], pad: usize, padding: usize) -> usize
    requires { (pad + padding + 8 ≤ length s.now) × (padding ≤ 4) }
    ensures { 1 < result → Closed s.now pad padding result }
{
    let end = pad + padding;
    if wire::u64_at(s, pad) | wire::u64_at(s, end) == 0 {
        return end + 8;
    }
    let outs = wire::u16_at(s, end + layout::LIVE_OUTS_HEAD_ZEROS) as usize;
    let last = end + layout::LIVE_OUTS_HEAD_SIZE + layout::LIVE_OUT_SIZE * outs;
    let more = (outs + 1) % 2 * 4;
    if s.len() < last + more {
        return 0;
    }
    1
}

// The same, with live-outs or without.
fn ending(s: &[u8], pad: usize, padding: usize) -> usize
    requires { (pad + padding + 8 ≤ length s.now) × (padding ≤ 4) × (4 ≤ pad) }
    ensures { 0 < result → Closed s.now pad padding result }
{
    let next = no_live_outs(s, pad, padding);
    if next > 1 {
        return next;
    }
    if padding_right(s, pad, padding) {
        return after_live_outs(s, pad + padding);
    }
    0
}

// Whether the flags are zero, and the offset from a function at `address` is an address.
fn head_right(s: &[u8], at: usize, address: u64) -> bool
    requires { at + 16 ≤ length s.now }
    ensures { result ≡ true → (word 2 s.now (at + 12) ≡ 0) × (address + word 4 s.now (at + 8) ≤ address_most) }
{
    if wire::u16_at(s, at + layout::FLAGS_AT) != 0 {
        return false;
    }
    let offset = wire::u32_at(s, at + layout::INSTRUCTION_OFFSET_AT) as u64;
    offset <= layout::ADDRESS_MOST - address
}

// A record of version 3 with so many locations and a right head.
fn of_version_3(s: &[u8], at: usize, count: usize) -> usize
    requires { (at + 24 ≤ length s.now) × (0 < count) × (count < 2 ^ 16) }
    ensures { (0 < result → Rights false s.now 0 (at + 16) count) × (1 < result → Closed s.now (at + 16 + 12 * count) (count % 2 * 4) result) }
{
    let pad = at + layout::RECORD_HEAD_SIZE + layout::LOCATION_SIZE * count;
    let padding = count % 2 * 4;
    if s.len() < pad + padding + 8 {
        return 0;
    }
    let next = no_live_outs(s, pad, padding);
    if glance::plain::<false>(s, at + layout::RECORD_HEAD_SIZE, count) {
        return next;
    }
    0
}

// The same of version 1.
fn of_version_1(s: &[u8], at: usize, count: usize) -> usize
    requires { (at + 24 ≤ length s.now) × (0 < count) × (count < 2 ^ 16) }
    ensures { (0 < result → Rights true s.now 0 (at + 16) count) × (1 < result → Closed s.now (at + 16 + 8 * count) 0 result) }
{
    let pad = at + layout::RECORD_HEAD_SIZE + layout::OLD_LOCATION_SIZE * count;
    if s.len() < pad + 8 {
        return 0;
    }
    let next = no_live_outs(s, pad, 0);
    if glance::plain::<true>(s, at + layout::RECORD_HEAD_SIZE, count) {
        return next;
    }
    0
}

// Where the record at `at`, of a function at `address`, ends, if its locations are plain and it has no live-outs; 1 if only its head and
// its locations are found right, and 0 if nothing is.
pub fn plain(s: &[u8], old: bool, address: u64, at: usize) -> usize
    requires { at ≤ length s.now }
    ensures { ((c : ℕ) → 0 < result → Begun old (drop at s.now) c address) × ((c : ℕ) → 1 < result → (at ≤ result) × (record_check old (drop at s.now) c address ≡ Valid (result - at))) }
{
    if s.len() - at < 24 {
        return 0;
    }
    if head_right(s, at, address) {
        let count = wire::u16_at(s, at + layout::NUM_LOCATIONS_AT) as usize;
        if count == 0 {
            return no_live_outs(s, at + layout::RECORD_HEAD_SIZE, 0);
        }
        if old {
            return of_version_1(s, at, count);
        }
        return of_version_3(s, at, count);
    }
    0
}

// Whether head and locations are right, if they are not yet known to be.
fn begun(
    s: &[u8],
    old: bool,
    constants: u32,
    address: u64,
    at: usize,
    count: usize,
    seen: bool,
) -> bool
    requires { (at + 16 + location_size old * count ≤ length s.now) × (count ≡ word 2 s.now (at + 14)) × (seen ≡ true → Begun old (drop at s.now) constants address) }
    ensures { result ≡ true → Begun old (drop at s.now) constants address }
{
    if seen {
        return true;
    }
    if head_right(s, at, address) {
        let limit = index_limit(constants);
        return glance_any::any(s, old, at + layout::RECORD_HEAD_SIZE, count, limit);
    }
    false
}

// Where the locations end of a record at `at`.
fn locations_end(old: bool, at: usize, count: usize) -> usize
    requires { at + 16 + 12 * count < 2 ^ 64 }
    ensures { (result ≡ at + 16 + location_size old * count) × (result ≤ at + 16 + 12 * count) }
{
    if old {
        return at + layout::RECORD_HEAD_SIZE + layout::OLD_LOCATION_SIZE * count;
    }
    at + layout::RECORD_HEAD_SIZE + layout::LOCATION_SIZE * count
}

// Where the record at `at`, of a function at `address`, ends, if all of it is right. Where `seen` is true, its head and locations are.
pub fn other(s: &[u8], old: bool, constants: u32, address: u64, at: usize, seen: bool) -> usize
    requires { (at ≤ length s.now) × (seen ≡ true → Begun old (drop at s.now) constants address) }
    ensures { 0 < result → (at ≤ result) × (record_check old (drop at s.now) constants address ≡ Valid (result - at)) }
{
    if s.len() - at < 24 {
        return 0;
    }
    let count = wire::u16_at(s, at + layout::NUM_LOCATIONS_AT) as usize;
    let pad = locations_end(old, at, count);
    let padding = layout::locations_padding(old, count);
    if s.len() < pad + padding + 8 {
        return 0;
    }
    if begun(s, old, constants, address, at, count, seen) {
        return ending(s, pad, padding);
    }
    0
}
