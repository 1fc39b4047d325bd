// The test of refusal 39. Its functions require that the arrays are inside, which 38 has shown.
ghost use Rattle.std.specs.Prelude.{◌≡◌, true, ◌≤◌, length};
ghost use Rattle.flat.specs.Layout.{section_least};
ghost use Rattle.flat.specs.Places.{offsets_right};
ghost use Rattle.flat_check.specs.Check.{ranges_right};

use flat::{layout, offsets};

#[tactic(auto, using(crate::proofs::Accept::right_arranged), unfolding(crate::specs::Check::ranges_right))]
pub fn ranges_right(s: &[u8]) -> bool
    requires { (section_least ≤ length s.now) × (offsets_right s.now ≡ true) }
    ensures { result ≡ ranges_right s.now }
{
    let frames = offsets::offset(s, layout::FRAMES_OFFSET_AT);
    let records = offsets::offset(s, layout::RECORDS_OFFSET_AT);
    let n = offsets::num_records(s);
    flat_along::frames_inside(s, frames, offsets::num_frames(s), n)
        && flat_along::records_inside(
            s,
            records,
            n,
            offsets::num_locations(s),
            offsets::num_live_outs(s),
        )
}
