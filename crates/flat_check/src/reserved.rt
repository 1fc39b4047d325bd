// The test of refusal 40. Its functions require that the arrays are inside, which 38 has shown.
ghost use Rattle.std.specs.Prelude.{◌≡◌, true, ◌&&◌, ◌+◌, ◌*◌, ◌≤◌, length};
ghost use Rattle.flat.specs.Layout.{section_least};
ghost use Rattle.flat.specs.Places.{offsets_right, num_registers};
ghost use Rattle.flat_check.specs.Check.{header_clear, frames_clear, registers_clear, records_clear, items_clear, reserved_clear};

use flat::{layout, offsets};

fn header_clear(s: &[u8]) -> bool
    requires { section_least ≤ length s.now }
    ensures { result ≡ header_clear s.now }
{
    flat_along::each_below(
        s,
        layout::BELOW_NONE,
        layout::HEADER_RESERVED_AT,
        1,
        layout::HEADER_RESERVED_SIZE,
    ) && flat_along::each_below(
        s,
        layout::BELOW_NONE,
        layout::HEADER_SIZE,
        1,
        layout::HEADER_PADDING,
    )
}

// The two flag bytes of each frame.
#[tactic(auto, using(crate::proofs::Accept::right_arranged))]
fn frames_clear(s: &[u8]) -> bool
    requires { (section_least ≤ length s.now) × (offsets_right s.now ≡ true) }
    ensures { result ≡ frames_clear s.now }
{
    let at = offsets::offset(s, layout::FRAMES_OFFSET_AT);
    let n = offsets::num_frames(s);
    flat_along::pairs_below(
        s,
        layout::BELOW_FOUR,
        layout::BELOW_NONE,
        at + layout::FRAME_FLAGS_AT,
        layout::FRAME_SIZE,
        n,
    )
}

// The frame registers, and the padding after them.
fn registers_clear(s: &[u8], n: usize) -> bool
    requires { (section_least ≤ length s.now) × (offsets_right s.now ≡ true) × (n ≡ num_registers s.now) }
    ensures { result ≡ registers_clear s.now }
{
    let at = offsets::offset(s, layout::REGISTERS_OFFSET_AT);
    let next = offsets::offset(s, layout::RECORDS_OFFSET_AT);
    let end = at + layout::REGISTER_SIZE * n;
    flat_along::each_below(
        s,
        layout::BELOW_ONE,
        at + layout::REGISTER_FLAGS_AT,
        layout::REGISTER_SIZE,
        n,
    ) && flat_along::each_below(s, layout::BELOW_NONE, end, 1, next - end)
}

// The records, and the padding after them.
fn records_clear(s: &[u8]) -> bool
    requires { (section_least ≤ length s.now) × (offsets_right s.now ≡ true) }
    ensures { result ≡ records_clear s.now }
{
    let at = offsets::offset(s, layout::RECORDS_OFFSET_AT);
    let n = offsets::num_records(s);
    let next = offsets::offset(s, layout::LOCATIONS_OFFSET_AT);
    let end = at + layout::RECORD_SIZE * n;
    flat_along::each_below(
        s,
        layout::BELOW_ONE,
        at + layout::RECORD_FLAGS_AT,
        layout::RECORD_SIZE,
        n,
    ) && flat_along::each_below(s, layout::BELOW_NONE, end, 1, next - end)
}

// The locations and the live-outs.
fn items_clear(s: &[u8]) -> bool
    requires { (section_least ≤ length s.now) × (offsets_right s.now ≡ true) }
    ensures { result ≡ items_clear s.now }
{
    let at = offsets::offset(s, layout::LOCATIONS_OFFSET_AT);
    let next = offsets::offset(s, layout::LIVE_OUTS_OFFSET_AT);
    let n = offsets::num_locations(s);
    let m = offsets::num_live_outs(s);
    flat_along::each_below(
        s,
        layout::BELOW_NONE,
        at + layout::LOCATION_RESERVED_AT,
        layout::LOCATION_SIZE,
        n,
    ) && flat_along::each_below(
        s,
        layout::BELOW_NONE,
        next + layout::LIVE_OUT_RESERVED_AT,
        layout::LIVE_OUT_SIZE,
        m,
    )
}

// All of them; the section has so many frame registers.
#[tactic(auto, unfolding(crate::specs::Check::reserved_clear))]
pub fn reserved_clear(s: &[u8], registers: usize) -> bool
    requires { (section_least ≤ length s.now) × (offsets_right s.now ≡ true) × (registers ≡ num_registers s.now) }
    ensures { result ≡ reserved_clear s.now }
{
    header_clear(s)
        && frames_clear(s)
        && registers_clear(s, registers)
        && records_clear(s)
        && items_clear(s)
}
