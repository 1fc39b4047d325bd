// The lookup of a record by its address. The functions below `find` are no entry points: they require an accepted section's arrays.
#![tactic(auto)]

ghost use Rattle.std.specs.Prelude.{◌≡◌, ◌≤◌, length};
ghost use Rattle.flat_check.specs.Check.{Accepted};
ghost use Rattle.flat_keys.specs.Keys.{keys_most, Keyed};
ghost use Rattle.flat_match.specs.Find.{matches, first_of, by_address};

use flat::{layout, offsets};
use flat_match::{MatchAnswer, keys, not_found};

// Where the frames name more records than this, the records' offsets are put in order first: to do so takes less than to try them all.
const NAMED_MOST: u64 = 16777216;

// The first match in frame order, then record order, by the keys of the first records.
#[tactic(auto, using(flat_check::proofs::Accept::accepted_least, flat_check::proofs::Accept::accepted_arranged))]
fn in_frames(s: &[u8], address: u64, keys: &[u64]) -> MatchAnswer
    requires { Accepted s.now × (length keys.now ≤ keys_most) × Keyed s.now keys.now (length keys.now) }
    ensures { result ≡ first_of (matches s.now address) }
{
    let frames = offsets::offset(s, layout::FRAMES_OFFSET_AT);
    let n = offsets::num_frames(s);
    for i in 0..n {
        let at = frames + layout::FRAME_SIZE * i;
        let k = usize::from(wire::u16_at(s, at + layout::RECORD_INDEX_AT));
        let number = usize::from(wire::u16_at(s, at + layout::RECORD_COUNT_AT));
        let hit = keys::in_frame(s, address, i, k, number, keys, keys.len());
        if hit.number == 0 {
            return hit;
        }
    }
    not_found(41)
}

// The same without keys.
fn one_by_one(s: &[u8], address: u64) -> MatchAnswer
    requires { Accepted s.now }
    ensures { result ≡ first_of (matches s.now address) }
{
    in_frames(s, address, &[])
}

// The same by the keys of all records that a frame can name.
fn by_keys(s: &[u8], address: u64) -> MatchAnswer
    requires { Accepted s.now }
    ensures { result ≡ first_of (matches s.now address) }
{
    let mut ordered = [0u64; flat_keys::KEYS_MOST];
    let count = flat_keys::order(s, &mut ordered);
    in_frames(s, address, &ordered[..count])
}

// A record by its address: 36 to 40, then 41.
pub fn find(s: &[u8], address: u64) -> MatchAnswer
    ensures { result ≡ by_address s.now address }
{
    let refusal = flat_check::check(s);
    if refusal != 0 {
        return not_found(refusal);
    }
    if flat_keys::named(s) > NAMED_MOST {
        by_keys(s, address)
    } else {
        one_by_one(s, address)
    }
}
