// A quick look at locations of any kind, a ConstIndex too, as `glance` looks at those of kinds 1 to 4.
// No entry point: each function requires that its bytes are inside.
#![tactic(auto)]

ghost use Rattle.std.specs.Prelude.{◌≡◌, true, ℕ, ◌+◌, ◌*◌, ◌-◌, ◌^◌, ◌≤◌, ◌<◌, [], ◌∷◌, length};
ghost use Rattle.glance.specs.Look.{Right, Rights, Low};
ghost use Rattle.glance.specs.Look as look;

// The words of the four locations from `at`, each less one, together.
fn four(s: &[u8], old: bool, at: usize) -> u64
    requires { at + look.size old * 4 ≤ length s.now }
    ensures { Low old result → (limit : ℕ) → Rights old s.now limit at 4 }
{
    let a = glance::word_less(s, at);
    let b = glance::word_less(s, glance::place(old, at, 1));
    let c = glance::word_less(s, glance::place(old, at, 2));
    let d = glance::word_less(s, glance::place(old, at, 3));
    a | b | (c | d)
}

// Where three of four looks at four to sixteen locations begin: after the first four, before the last four, and the last four; worked
// out in bytes. The first look begins with the first location; they may overlap.
fn spread(old: bool, at: usize, count: usize) -> [usize; 3]
    requires { (at + look.size old * count < 2 ^ 64) × (4 ≤ count) × (count ≤ 16) }
    ensures { result ≡ (at + look.size old * (4 - (8 - count))) ∷ (at + look.size old * (count - 8)) ∷ (at + look.size old * (count - 4)) ∷ [] }
{
    let four = glance::place(old, 0, 4);
    let eight = glance::place(old, 0, 8);
    let all = glance::place(old, 0, count);
    let second = four - eight.saturating_sub(all);
    let third = all.saturating_sub(eight);
    [at + second, at + third, at + all - four]
}

// The eight bytes of a location, less one, and less one more if it is a ConstIndex whose index is below `limit`.
fn adjusted(s: &[u8], old: bool, at: usize, limit: u32) -> u64
    requires { at + look.size old * 1 ≤ length s.now }
    ensures { Low old result → Right old s.now limit at }
{
    let v = glance::word_less(s, at);
    let index = wire::u32_at(s, glance::place(old, at, 1) - 4);
    if index < limit && v % 256 == 4 {
        v - 1
    } else {
        v
    }
}

// The words of the four locations from `at`, of any kind, together.
fn four_of_any(s: &[u8], old: bool, at: usize, limit: u32) -> u64
    requires { at + look.size old * 4 ≤ length s.now }
    ensures { Low old result → Rights old s.now limit at 4 }
{
    let a = adjusted(s, old, at, limit);
    let b = adjusted(s, old, glance::place(old, at, 1), limit);
    let c = adjusted(s, old, glance::place(old, at, 2), limit);
    let d = adjusted(s, old, glance::place(old, at, 3), limit);
    a | b | (c | d)
}

// The four locations from `at`, of any kind; those of kinds 1 to 4 by one read each.
fn any_four(s: &[u8], old: bool, at: usize, limit: u32) -> bool
    requires { at + look.size old * 4 ≤ length s.now }
    ensures { result ≡ true → Rights old s.now limit at 4 }
{
    glance::low(old, four(s, old, at)) || glance::low(old, four_of_any(s, old, at, limit))
}

// Four to sixteen locations, of any kind, by one test. Each of the two versions is compiled with the size of its locations.
fn any_sixteen<const OLD: bool>(s: &[u8], at: usize, count: usize, limit: u32) -> bool
    requires { (at + look.size OLD * count ≤ length s.now) × (4 ≤ count) × (count ≤ 16) }
    ensures { result ≡ true → Rights OLD s.now limit at count }
{
    let [second, third, last] = spread(OLD, at, count);
    let w = four_of_any(s, OLD, at, limit);
    let x = four_of_any(s, OLD, second, limit);
    let y = four_of_any(s, OLD, third, limit);
    let z = four_of_any(s, OLD, last, limit);
    glance::low(OLD, w | x | (y | z))
}

// Locations of any kind from number `begun` on, one by one.
fn rest(s: &[u8], old: bool, at: usize, count: usize, limit: u32, begun: usize) -> bool
    requires { (at + look.size old * count ≤ length s.now) × (begun ≤ count) }
    ensures { result ≡ true → Rights old s.now limit at begun → Rights old s.now limit at count }
{
    for i in begun..count {
        if !glance::low(old, adjusted(s, old, glance::place(old, at, i), limit)) {
            return false;
        }
    }
    true
}

// Whether the `count` locations from `at` are right: four at a time, by one test or two, and the rest one by one.
fn by_fours(s: &[u8], old: bool, at: usize, count: usize, limit: u32) -> bool
    requires { at + look.size old * count ≤ length s.now }
    ensures { result ≡ true → Rights old s.now limit at count }
{
    let fours = count / 4;
    for i in 0..fours {
        if !any_four(s, old, glance::place(old, at, 4 * i), limit) {
            return false;
        }
    }
    rest(s, old, at, count, limit, 4 * fours)
}

// Whether the locations from `at`, of any kind, are right: four to sixteen by one test.
pub fn any(s: &[u8], old: bool, at: usize, count: usize, limit: u32) -> bool
    requires { at + look.size old * count ≤ length s.now }
    ensures { result ≡ true → Rights old s.now limit at count }
{
    if count < 4 || count > 16 {
        return by_fours(s, old, at, count, limit);
    }
    if old {
        any_sixteen::<true>(s, at, count, limit)
    } else {
        any_sixteen::<false>(s, at, count, limit)
    }
}
