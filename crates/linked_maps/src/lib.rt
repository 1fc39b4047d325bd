// Cutting a linked section into its maps.
#![tactic(auto)]

ghost use Rattle.std.specs.Prelude.{◌≡◌, ◌+◌, ◌*◌, ◌-◌, ◌≤◌, ◌<◌, length, drop, set};
ghost use Rattle.std.proofs.lemmas.List.Edits.{sets};
ghost use Rattle.stackmap.specs.Verdict.{verdict, shift};
ghost use Rattle.stackmap.specs.Check.{section_check};
ghost use Rattle.linked.specs.Linked.{cut, numbers_of, maps_of};
ghost use Rattle.linked.specs.Answers.{Answers};
ghost use Rattle.linked_maps.specs.Walk.{told, maps_in, end_at, start_of, Kept, KeptBy};
ghost use Rattle.linked_maps.specs.Counted.{Count, counted};

use linked::Maps;
use refusals::{Cause, Refusal};

const TOO_SHORT: u8 = 24;

// How many ends are kept. No map has fewer than 16 bytes, so that a section has at most 1,048,576: too many for the stack.
const KEPT: usize = 1024;

// The check of what lies from `at` on, with places in the whole.
fn look(s: &[u8], at: usize) -> Result<usize, Refusal>
    requires { at ≤ length s.now }
    ensures { verdict result ≡ shift at (section_check (drop at s.now)) }
{
    match stackmap_check::check(&s[at..]) {
        Ok(end) => Ok(at + end),
        Err(Refusal(cause, place)) => Err(Refusal(cause, at + place)),
    }
}

// Keeps the end of map number i, if there is room for it.
fn keep(ends: &mut [usize], i: usize, end: usize)
    ensures { ends.new ≡ set ends.old i end }
{
    if i < ends.len() {
        ends[i] = end;
    }
}

// How many maps there are, with the ends of the first ones kept: one check a map, and nothing written.
fn count_maps(s: &[u8], ends: &mut [usize]) -> Result<usize, Refusal>
    ensures { (counted result ≡ told 0 (cut s.now)) × KeptBy s.now ends.new (counted result) }
{
    let mut at: usize = 0;
    let mut count: usize = 0;
    // Kept: the loop ends by its returns alone, and how many maps there are is what it finds: a `for` would need an answer after it that never comes.
    loop {
        match look(s, at) {
            Ok(end) => {
                keep(ends, count, end);
                return Ok(count + 1);
            }
            Err(Refusal(cause, place)) => match cause {
                // Bytes after the last record: here the next map begins there.
                Cause::BytesAfter => {
                    keep(ends, count, place);
                    at = place;
                    count += 1;
                }
                _ => return Err(Refusal(cause, place)),
            },
        }
    }
}

// The end of map number i, which begins at `at`. Where it was not kept, the map is checked a second time.
fn end_of(s: &[u8], ends: &[usize], i: usize, at: usize) -> usize
    requires { (at ≤ length s.now) × (at ≡ start_of i s.now) × Kept s.now ends.now (i + 1) }
    ensures { result ≡ end_at s.now at }
{
    if i < ends.len() {
        return ends[i];
    }
    match look(s, at) {
        Ok(end) => end,
        Err(Refusal(_, place)) => place,
    }
}

// The two numbers of map number i.
fn put_map(out: &mut [u64], i: usize, first: usize, end: usize)
    requires { (2 * i + 1 < length out.old) × (first ≤ end) }
    ensures { out.new ≡ set (set out.old (2 * i) first) (2 * i + 1) (end - first) }
{
    out[2 * i] = first as u64;
    out[2 * i + 1] = (end - first) as u64;
}

// The numbers of all maps.
fn put_maps(s: &[u8], ends: &[usize], count: usize, out: &mut [u64])
    requires { (Count count ≡ told 0 (cut s.now)) × Kept s.now ends.now count × (2 * count ≤ length out.old) }
    ensures { out.new ≡ sets out.old 0 (numbers_of (maps_in (cut s.now))) }
{
    let mut at: usize = 0;
    for i in 0..count {
        let end = end_of(s, ends, i, at);
        put_map(out, i, at, end);
        at = end;
    }
}

// A refusal; nothing is written.
fn refused(number: u8, place: usize) -> Maps
    ensures { (result.number ≡ number) × (result.place ≡ place) × (result.count ≡ 0) }
{
    Maps {
        number,
        place,
        count: 0,
    }
}

// How many maps a linked section has, with the first byte and the length of each by turns in the lent list; or the refusal of a map, at
// its place in the whole; or 24 if the list is shorter than two numbers a map. What lies beyond these numbers is as it was, and so is
// the whole list on a refusal: nothing is written before all maps are cut.
pub fn maps(section: &[u8], out: &mut [u64]) -> Maps
    ensures { Answers result out.new (maps_of section.now out.old) }
{
    let mut ends: [usize; KEPT] = [0; KEPT];
    match count_maps(section, &mut ends) {
        Err(Refusal(cause, place)) => refused(cause.number(), place),
        Ok(count) => {
            let numbers = 2 * count;
            if out.len() < numbers {
                return refused(TOO_SHORT, 0);
            }
            put_maps(section, &ends, count, out);
            Maps {
                number: 0,
                place: 0,
                count,
            }
        }
    }
}
