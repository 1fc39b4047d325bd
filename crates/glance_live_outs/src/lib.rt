// A quick look at live-outs: up to eight by one test.
// No entry point: each function requires that its bytes are inside.
#![tactic(auto)]

ghost use Rattle.std.specs.Prelude.{◌≡◌, true, ◌+◌, ◌*◌, ◌≤◌, ◌<◌, length, get_or};
ghost use Rattle.glance.specs.Look.{Outs};

// The byte of live-out number i, or of number `last` where that is less, that has to be zero.
fn zero_byte(s: &[u8], at: usize, i: usize, last: usize) -> u8
    requires { at + 4 * last + 4 ≤ length s.now }
    ensures { i ≤ last → result ≡ get_or s.now (at + 4 * i + 2) 0 }
{
    s[at + 4 * i.min(last) + 2]
}

// Up to eight live-outs, the last of them number `last`: so that their number costs no branch.
fn eight_outs(s: &[u8], at: usize, last: usize) -> bool
    requires { (at + 4 * last + 4 ≤ length s.now) × (last < 8) }
    ensures { result ≡ true → Outs s.now at (last + 1) }
{
    let a = zero_byte(s, at, 0, last) | zero_byte(s, at, 1, last);
    let b = zero_byte(s, at, 2, last) | zero_byte(s, at, 3, last);
    let c = zero_byte(s, at, 4, last) | zero_byte(s, at, 5, last);
    let d = zero_byte(s, at, 6, last) | zero_byte(s, at, 7, last);
    (a | b | (c | d)) == 0
}

// Live-outs one by one.
fn each_out(s: &[u8], at: usize, count: usize) -> bool
    requires { at + 4 * count ≤ length s.now }
    ensures { result ≡ true → Outs s.now at count }
{
    for i in 0..count {
        if s[at + 4 * i + 2] != 0 {
            return false;
        }
    }
    true
}

// Whether the `count` live-outs from `at` have their zero byte.
pub fn live_outs(s: &[u8], at: usize, count: usize) -> bool
    requires { at + 4 * count ≤ length s.now }
    ensures { result ≡ true → Outs s.now at count }
{
    if 0 < count && count <= 8 {
        return eight_outs(s, at, count - 1);
    }
    each_out(s, at, count)
}
