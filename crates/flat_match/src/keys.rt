// The lookup where frames share so many records that to try them one by one would take too long: the records' instruction offsets are
// put in order once, and each frame's first match is found by halving. No entry points: these require an accepted section's arrays.
ghost use Rattle.std.specs.Prelude.{◌≡◌, ◌+◌, ◌*◌, ◌≤◌, ◌<◌, length};
ghost use Rattle.flat.specs.Layout.{section_least, frame_size, record_size};
ghost use Rattle.flat.specs.Places.{frames_at, records_at};
ghost use Rattle.flat_match.specs.Find.{in_frame, first_of};
ghost use Rattle.flat_match.specs.Code.{answer_of};
ghost use Rattle.flat_keys.specs.Keys.{keys_most, Keyed};

use crate::MatchAnswer;
use flat::{layout, offsets};
use flat_keys::KEY_STEP;

// The first offset that has no 32 bits.
const OFFSETS: u64 = 4294967296;

// The same as an answer.
pub fn in_frame(
    s: &[u8],
    address: u64,
    i: usize,
    k: usize,
    n: usize,
    keys: &[u64],
    count: usize,
) -> MatchAnswer
    requires { (section_least ≤ length s.now) × (frames_at s.now + frame_size * i + frame_size ≤ length s.now) × (records_at s.now + record_size * (k + n) ≤ length s.now)
        × (count ≤ length keys.now) × (count ≤ keys_most) × Keyed s.now keys.now count }
    ensures { result ≡ first_of (in_frame s.now address i k n) }
{
    crate::answer(i, first(s, address, i, k, n, &keys[..count]))
}

// The first of n records from k on that has the address in the frame i, by the keys of the first records where these are among
// them. The first key from (offset, k) on is that of the first match, or no match stands before it.
fn first(s: &[u8], address: u64, i: usize, k: usize, n: usize, keys: &[u64]) -> Option<usize>
    requires { (section_least ≤ length s.now) × (frames_at s.now + frame_size * i + frame_size ≤ length s.now) × (records_at s.now + record_size * (k + n) ≤ length s.now)
        × (length keys.now ≤ keys_most) × Keyed s.now keys.now (length keys.now) }
    ensures { answer_of i result ≡ first_of (in_frame s.now address i k n) }
{
    let end = k + n;
    if end > keys.len() {
        return crate::in_frame(s, address, i, k, n);
    }
    let frames = offsets::offset(s, layout::FRAMES_OFFSET_AT);
    let function = wire::u64_at(s, frames + layout::FRAME_SIZE * i);
    let rest = address.checked_sub(function)?;
    if rest >= OFFSETS {
        return None;
    }
    let base = rest * KEY_STEP;
    let p = sorted::lower_bound(keys, keys.len(), base + k as u64);
    let key = *keys.get(p)?;
    if key >= base + end as u64 {
        return None;
    }
    let j = (key - base) as usize;
    crate::in_frame(s, address, i, j, end - j)
}
