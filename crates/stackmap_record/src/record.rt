// The exact check of one record, which stands at the start of the slice: item by item, so that the first that is wrong is named. `quick`
// goes before it, so that it is asked of at most one record.
ghost use Rattle.std.specs.Prelude.{◌≡◌, ◌+◌, ◌*◌, ◌≤◌, length};
ghost use Rattle.stackmap.specs.Section.{record_length};
ghost use Rattle.stackmap.specs.Verdict.{verdict};
ghost use Rattle.stackmap.specs.Record.{locations, record_inside, record_bytes, record_check};

use refusals::{Cause, Refusal};
use stackmap::layout;

// The length of the record at the start of `s`, where all of it is inside.
fn record_inside(s: &[u8], old: bool) -> Result<usize, Refusal>
    ensures { verdict result ≡ record_inside old s.now }
{
    if s.len() < layout::RECORD_HEAD_SIZE {
        return Err(Refusal(Cause::CutOff, 0));
    }
    let locations = wire::u16_at(s, layout::NUM_LOCATIONS_AT) as usize;
    let pad = layout::RECORD_HEAD_SIZE + layout::location_size(old) * locations;
    let end = pad + layout::locations_padding(old, locations);
    if s.len() < end + layout::LIVE_OUTS_HEAD_SIZE {
        return Err(Refusal(Cause::CutOff, 0));
    }
    let outs = wire::u16_at(s, end + layout::LIVE_OUTS_HEAD_ZEROS) as usize;
    let next = end
        + layout::LIVE_OUTS_HEAD_SIZE
        + layout::LIVE_OUT_SIZE * outs
        + (outs + 1) % 2 * 4;
    if s.len() < next {
        return Err(Refusal(Cause::CutOff, 0));
    }
    Ok(next)
}

// The bytes of the record at the start of `s`, from left to right.
fn record_bytes(s: &[u8], old: bool, constants: u32) -> Result<usize, Refusal>
    requires { record_length old s.now ≤ length s.now }
    ensures { verdict result ≡ record_bytes old s.now constants }
{
    let locations = wire::u16_at(s, layout::NUM_LOCATIONS_AT) as usize;
    let pad = layout::RECORD_HEAD_SIZE + layout::location_size(old) * locations;
    let padding = layout::locations_padding(old, locations);
    let end = pad + padding;
    let outs = wire::u16_at(s, end + layout::LIVE_OUTS_HEAD_ZEROS) as usize;
    let pad2 = end + layout::LIVE_OUTS_HEAD_SIZE + layout::LIVE_OUT_SIZE * outs;
    stackmap_parts::zero_bytes(s, layout::FLAGS_AT, layout::FLAGS_SIZE)?;
    stackmap_parts::each_location(s, old, layout::RECORD_HEAD_SIZE, locations, constants)?;
    stackmap_parts::zero_bytes(s, pad, padding + layout::LIVE_OUTS_HEAD_ZEROS)?;
    stackmap_parts::all_live_outs(s, end + layout::LIVE_OUTS_HEAD_SIZE, outs)?;
    stackmap_parts::zero_bytes(s, pad2, (outs + 1) % 2 * 4)?;
    Ok(pad2 + (outs + 1) % 2 * 4)
}

// The record at the start of `s`, of a function at `address`.
pub fn check_record(s: &[u8], old: bool, constants: u32, address: u64) -> Result<usize, Refusal>
    ensures { verdict result ≡ record_check old s.now constants address }
{
    record_inside(s, old)?;
    let offset = wire::u32_at(s, layout::INSTRUCTION_OFFSET_AT) as u64;
    if !stackmap_parts::address_right(old, address, offset) {
        return Err(Refusal(Cause::AddressOverflow, 0));
    }
    record_bytes(s, old, constants)
}
