// Where the arrays begin, how many items each has, and the test of refusal 38.
// No entry point: the functions require a length within the limits of 36, which the check has tested; those above 38 what 38 has shown.
ghost use Rattle.std.specs.Prelude.{◌≡◌, true, false, ◌+◌, ◌*◌, ◌-◌, ◌/◌, ◌≤◌, ◌<◌, max, length};
ghost use Rattle.wire.specs.Word.{word};
ghost use Rattle.flat.specs.Layout.{section_least, section_most, header_size, frame_size, align};
ghost use Rattle.flat.specs.Fronts.{Fronts};
ghost use Rattle.flat.specs.Places.{greatest, range_end, registers_used, num_constants, num_frames, num_registers, num_records, num_locations, num_live_outs, offsets_right};

use crate::layout;

// An offset that the header states.
pub fn offset(s: &[u8], at: usize) -> usize
    requires { (at + 4 ≤ header_size) × (section_least ≤ length s.now) }
    ensures { (result ≡ word 4 s.now at) × (result < 4294967296) }
{
    wire::u32_at(s, at) as usize
}

// How many items of a size fit between two places, whose offsets the header states.
fn between(s: &[u8], from: usize, to: usize, size: usize) -> usize
    requires { (from + 4 ≤ header_size) × (to + 4 ≤ header_size) × (section_least ≤ length s.now) × (0 < size) }
    ensures { result ≡ (word 4 s.now to - word 4 s.now from) / size }
{
    offset(s, to).saturating_sub(offset(s, from)) / size
}

#[tactic(auto, unfolding(crate::specs::Places::num_constants))]
pub fn num_constants(s: &[u8]) -> usize
    requires { section_least ≤ length s.now }
    ensures { result ≡ num_constants s.now }
{
    between(
        s,
        layout::CONSTANTS_OFFSET_AT,
        layout::FRAMES_OFFSET_AT,
        layout::CONSTANT_SIZE,
    )
}

#[tactic(auto, unfolding(crate::specs::Places::num_frames))]
pub fn num_frames(s: &[u8]) -> usize
    requires { section_least ≤ length s.now }
    ensures { result ≡ num_frames s.now }
{
    between(
        s,
        layout::FRAMES_OFFSET_AT,
        layout::REGISTERS_OFFSET_AT,
        layout::FRAME_SIZE,
    )
}

#[tactic(auto, unfolding(crate::specs::Places::num_records))]
pub fn num_records(s: &[u8]) -> usize
    requires { section_least ≤ length s.now }
    ensures { result ≡ num_records s.now }
{
    between(
        s,
        layout::RECORDS_OFFSET_AT,
        layout::LOCATIONS_OFFSET_AT,
        layout::RECORD_SIZE,
    )
}

#[tactic(auto, unfolding(crate::specs::Places::num_locations))]
pub fn num_locations(s: &[u8]) -> usize
    requires { section_least ≤ length s.now }
    ensures { result ≡ num_locations s.now }
{
    between(
        s,
        layout::LOCATIONS_OFFSET_AT,
        layout::LIVE_OUTS_OFFSET_AT,
        layout::LOCATION_SIZE,
    )
}

#[tactic(auto, unfolding(crate::specs::Places::num_live_outs))]
pub fn num_live_outs(s: &[u8]) -> usize
    requires { section_least ≤ length s.now }
    ensures { result ≡ num_live_outs s.now }
{
    s.len()
        .saturating_sub(offset(s, layout::LIVE_OUTS_OFFSET_AT))
        / layout::LIVE_OUT_SIZE
}

// An index plus a count, each at its place.
pub fn range_end(s: &[u8], index: usize, count: usize) -> usize
    requires { (index + 2 ≤ length s.now) × (count + 2 ≤ length s.now) }
    ensures { (result ≡ range_end s.now index count) × (result ≤ 131070) }
{
    usize::from(wire::u16_at(s, index)) + usize::from(wire::u16_at(s, count))
}

// The greatest index plus count over n frames.
fn registers_used(s: &[u8], frames: usize, n: usize) -> usize
    requires { frames + frame_size * n ≤ length s.now }
    ensures { (result ≡ greatest (registers_used s.now frames) 0 n) × (result ≤ 131070) }
{
    let mut most: usize = 0;
    for i in 0..n {
        let at = frames + layout::FRAME_SIZE * i;
        most = most.max(range_end(
            s,
            at + layout::REGISTER_INDEX_AT,
            at + layout::REGISTER_COUNT_AT,
        ));
    }
    most
}

// The number of frame registers.
pub fn num_registers(s: &[u8]) -> usize
    requires { (section_least ≤ length s.now) × (word 4 s.now 8 + frame_size * num_frames s.now ≤ length s.now) }
    ensures { (result ≡ num_registers s.now) × (result ≤ 131070) }
{
    registers_used(s, offset(s, layout::FRAMES_OFFSET_AT), num_frames(s))
}

// The earliest aligned place after n items of a size.
fn after(from: usize, size: usize, n: usize, alignment: usize) -> usize
    requires { (0 < alignment) × (alignment ≤ 8) × (from + size * n ≤ 8589934592) }
    ensures { result ≡ align alignment (from + size * n) }
{
    (from + size * n).next_multiple_of(alignment)
}

// The first half of the test of refusal 38, up to where the frame registers begin. Where it holds, the frames are inside.
#[tactic(auto, unfolding(crate::specs::Places::num_constants, crate::specs::Places::num_frames))]
pub fn fronts_right(s: &[u8]) -> bool
    requires { (section_least ≤ length s.now) × (length s.now ≤ section_most) }
    ensures { (result ≡ true → Fronts s.now) × (result ≡ false → false ≡ offsets_right s.now) }
{
    let constants = offset(s, layout::CONSTANTS_OFFSET_AT);
    let frames = offset(s, layout::FRAMES_OFFSET_AT);
    let registers = offset(s, layout::REGISTERS_OFFSET_AT);
    registers <= s.len()
        && constants == after(layout::HEADER_SIZE, 1, 0, layout::CONSTANT_ALIGN)
        && frames
            == after(
                constants,
                layout::CONSTANT_SIZE,
                num_constants(s),
                layout::FRAME_ALIGN,
            )
        && registers
            == after(
                frames,
                layout::FRAME_SIZE,
                num_frames(s),
                layout::REGISTER_ALIGN,
            )
}

// The whole test of refusal 38, of a section whose first half is right and which has so many frame registers.
#[tactic(auto, unfolding(crate::specs::Places::num_records, crate::specs::Places::num_locations, crate::specs::Places::num_live_outs))]
pub fn offsets_right(s: &[u8], number: usize) -> bool
    requires { (section_least ≤ length s.now) × (length s.now ≤ section_most) × Fronts s.now × (number ≡ num_registers s.now) × (number ≤ 131070) }
    ensures { result ≡ offsets_right s.now }
{
    let registers = offset(s, layout::REGISTERS_OFFSET_AT);
    let records = offset(s, layout::RECORDS_OFFSET_AT);
    let locations = offset(s, layout::LOCATIONS_OFFSET_AT);
    let live_outs = offset(s, layout::LIVE_OUTS_OFFSET_AT);
    records
        == after(
            registers,
            layout::REGISTER_SIZE,
            number,
            layout::RECORD_ALIGN,
        )
        && locations
            == after(
                records,
                layout::RECORD_SIZE,
                num_records(s),
                layout::LOCATION_ALIGN,
            )
        && live_outs
            == after(
                locations,
                layout::LOCATION_SIZE,
                num_locations(s),
                layout::LIVE_OUT_ALIGN,
            )
        && s.len() == after(live_outs, layout::LIVE_OUT_SIZE, num_live_outs(s), 1)
}
