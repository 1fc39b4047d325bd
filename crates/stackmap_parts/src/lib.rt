// The parts of a record, each by itself: zero bytes, locations, live-outs, and the address that it stands for.
// No entry points but `address_right`: they require that their bytes are inside, which 1 or 4 has tested.
#![tactic(auto)]

ghost use Rattle.std.specs.Prelude.{◌≡◌, ◌+◌, ◌*◌, ◌≤◌, length};
ghost use Rattle.stackmap.specs.Layout.{location_size, live_out_size};
ghost use Rattle.wire.specs.Word.{word};
ghost use Rattle.stackmap.specs.Verdict.{verdict};
ghost use Rattle.stackmap.specs.Record.{zeros, pool_check, location_check, locations, live_outs, address_right};

use refusals::{Cause, Refusal};
use stackmap::layout;

// The `count` bytes from `at` are zero.
pub fn zero_bytes(s: &[u8], at: usize, count: usize) -> Result<usize, Refusal>
    requires { at + count ≤ length s.now }
    ensures { verdict result ≡ zeros count s.now at }
{
    for i in 0..count {
        if s[at + i] != 0 {
            return Err(Refusal(Cause::NotZero, at + i));
        }
    }
    Ok(at + count)
}

// The pool entry of a location of this kind, whose offset stands at `offset`; it begins at `at` and ends at `end`.
fn pool(
    s: &[u8],
    kind: u8,
    offset: usize,
    constants: u32,
    at: usize,
    end: usize,
) -> Result<usize, Refusal>
    requires { offset + 4 ≤ length s.now }
    ensures { verdict result ≡ pool_check kind (word 4 s.now offset) constants at end }
{
    if kind != layout::KIND_CONST_INDEX {
        return Ok(end);
    }
    let index = wire::u32_at(s, offset);
    if index >= layout::NEGATIVE_FROM || index >= constants {
        return Err(Refusal(Cause::NotInPool, at));
    }
    Ok(end)
}

// The location at `at`, of a section with `constants` constants.
fn location(s: &[u8], old: bool, at: usize, constants: u32) -> Result<usize, Refusal>
    requires { at + location_size old ≤ length s.now }
    ensures { verdict result ≡ location_check old s.now constants at }
{
    let kind = s[at];
    if kind < layout::KIND_LEAST || kind > layout::KIND_MOST {
        return Err(Refusal(Cause::UnknownKind, at));
    }
    if old {
        return pool(
            s,
            kind,
            at + layout::OLD_LOCATION_OFFSET_AT,
            constants,
            at,
            at + layout::OLD_LOCATION_SIZE,
        );
    }
    if s[at + 1] != 0 {
        return Err(Refusal(Cause::NotZero, at + 1));
    }
    if s[at + 6] != 0 {
        return Err(Refusal(Cause::NotZero, at + 6));
    }
    if s[at + 7] != 0 {
        return Err(Refusal(Cause::NotZero, at + 7));
    }
    pool(
        s,
        kind,
        at + layout::LOCATION_OFFSET_AT,
        constants,
        at,
        at + layout::LOCATION_SIZE,
    )
}

// The `count` locations from `at`.
pub fn each_location(
    s: &[u8],
    old: bool,
    at: usize,
    count: usize,
    constants: u32,
) -> Result<usize, Refusal>
    requires { at + location_size old * count ≤ length s.now }
    ensures { verdict result ≡ locations old count s.now constants at }
{
    let size = layout::location_size(old);
    for i in 0..count {
        location(s, old, at + size * i, constants)?;
    }
    Ok(at + size * count)
}

// The `count` live-outs from `at`.
pub fn all_live_outs(s: &[u8], at: usize, count: usize) -> Result<usize, Refusal>
    requires { at + live_out_size * count ≤ length s.now }
    ensures { verdict result ≡ live_outs count s.now at }
{
    for i in 0..count {
        let zero = at + layout::LIVE_OUT_SIZE * i + layout::LIVE_OUT_ZERO_AT;
        if s[zero] != 0 {
            return Err(Refusal(Cause::NotZero, zero));
        }
    }
    Ok(at + layout::LIVE_OUT_SIZE * count)
}

// Whether a function's address and an instruction offset add up to an address; version 1 does not say whose a record is.
pub fn address_right(old: bool, address: u64, offset: u64) -> bool
    ensures { result ≡ address_right old (address + offset) }
{
    old || offset <= layout::ADDRESS_MOST - address
}
