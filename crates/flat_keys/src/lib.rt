// The keys of a flat section's records: their instruction offsets in order, so that a frame's first match is found by halving; and whether
// that pays. No entry points: these require an accepted section's arrays.
#![tactic(auto)]

ghost use Rattle.std.specs.Prelude.{◌≡◌, ◌+◌, ◌*◌, ◌≤◌, ◌<◌, length};
ghost use Rattle.flat.specs.Layout.{section_least, record_size};
ghost use Rattle.flat.specs.Places.{records_at};
ghost use Rattle.flat_check.specs.Check.{Accepted};
ghost use Rattle.flat_keys.specs.Keys.{keys_most, Filled, Keyed};

use flat::{layout, offsets};

// How many records the 16-bit index and count of a frame can reach, and one more; a key is an offset times that, and the record's number.
pub const KEYS_MOST: usize = 131072;

pub const KEY_STEP: u64 = 131072;

// The keys of the first records, as many as the list has: the offset, and the record's number after it.
fn fill(s: &[u8], keys: &mut [u64])
    requires { (section_least ≤ length s.now) × (records_at s.now + record_size * length keys.old ≤ length s.now) × (length keys.old ≤ keys_most) }
    ensures { (length keys.new ≡ length keys.old) × Filled s.now keys.new (length keys.old) }
{
    let records = offsets::offset(s, layout::RECORDS_OFFSET_AT);
    for (j, key) in keys.iter_mut().enumerate() {
        let offset = wire::u32_at(
            s,
            records + layout::RECORD_SIZE * j + layout::INSTRUCTION_OFFSET_AT,
        );
        *key = u64::from(offset) * KEY_STEP + j as u64;
    }
}

// Puts the keys of the first records in order, as many as there are and a frame can name. Answers their number.
#[tactic(auto, using(flat_check::proofs::Accept::accepted_least, flat_check::proofs::Accept::accepted_arranged))]
pub fn order(s: &[u8], keys: &mut [u64]) -> usize
    requires { Accepted s.now × (keys_most ≤ length keys.old) }
    ensures { (length keys.new ≡ length keys.old) × (result ≤ keys_most) × Keyed s.now keys.new result }
{
    let records = offsets::num_records(s);
    let count = records.min(KEYS_MOST);
    fill(s, &mut keys[..count]);
    // Kept: std's sort calls itself, and a lookup would need 3.7 KiB of stack over the 1 MiB that it is said to need.
    sorted_numbers::shell::sort(keys, count);
    count
}

// How many records the frames name in all, each as often as it is named.
#[tactic(auto, using(flat_check::proofs::Accept::accepted_least, flat_check::proofs::Accept::accepted_arranged))]
pub fn named(s: &[u8]) -> u64
    requires { Accepted s.now }
{
    let frames = offsets::offset(s, layout::FRAMES_OFFSET_AT);
    let n = offsets::num_frames(s);
    let mut sum = 0;
    for k in 0..n {
        sum += u64::from(wire::u16_at(
            s,
            frames + layout::FRAME_SIZE * k + layout::RECORD_COUNT_AT,
        ));
    }
    sum
}
