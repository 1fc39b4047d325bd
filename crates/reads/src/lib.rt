// Two ways to read eight bytes, for `./bench reads`, which times them side by side. Not a part of the library.
#![tactic(auto)]

ghost use Rattle.std.specs.Prelude.{◌≡◌, ◌+◌, ◌≤◌, length};
ghost use Rattle.wire.specs.Word.{word};
ghost use Rattle.reads.specs.Equal.{hit_at, equal};

// The eight bytes at a place, by halves.
fn by_halves(s: &[u8], at: usize) -> u64
    requires { at + 8 ≤ length s.now }
    ensures { result ≡ word 8 s.now at }
{
    u64::from(wire::u32_at(s, at)) + u64::from(wire::u32_at(s, at + 4)) * 4294967296
}

// The eight bytes at a place, each by itself.
fn by_bytes(s: &[u8], at: usize) -> u64
    requires { at + 8 ≤ length s.now }
    ensures { result ≡ word 8 s.now at }
{
    u64::from_le_bytes([
        s[at],
        s[at + 1],
        s[at + 2],
        s[at + 3],
        s[at + 4],
        s[at + 5],
        s[at + 6],
        s[at + 7],
    ])
}

fn read<const HALVES: bool>(s: &[u8], at: usize) -> u64
    requires { at + 8 ≤ length s.now }
    ensures { result ≡ word 8 s.now at }
{
    if HALVES {
        by_halves(s, at)
    } else {
        by_bytes(s, at)
    }
}

// 1 if the number stands at the place, else 0; a place too near the end has none.
fn hit<const HALVES: bool>(s: &[u8], at: usize, number: u64) -> usize
    ensures { (result ≡ hit_at s.now number at) × (result ≤ 1) }
{
    if at > s.len() || s.len() - at < 8 {
        return 0;
    }
    usize::from(read::<HALVES>(s, at) == number)
}

// At how many of the places the number stands.
fn count<const HALVES: bool>(s: &[u8], places: &[usize], number: u64) -> usize
    ensures { result ≡ equal s.now number places.now }
{
    let mut found: usize = 0;
    for &at in places {
        found += hit::<HALVES>(s, at, number);
    }
    found
}

#[unsafe(no_mangle)]
pub extern "C" fn reads_by_halves(s: &[u8], places: &[usize], number: u64) -> usize
    ensures { result ≡ equal s.now number places.now }
{
    count::<true>(s, places, number)
}

#[unsafe(no_mangle)]
pub extern "C" fn reads_by_bytes(s: &[u8], places: &[usize], number: u64) -> usize
    ensures { result ≡ equal s.now number places.now }
{
    count::<false>(s, places, number)
}
