// A quick look at the locations of a record: many by one test. It says that they are right, or nothing; what is wrong is named by the exact
// check above. Here are the locations without a ConstIndex; those of any kind are in `glance_any`, live-outs in `glance_live_outs`.
// Where the versions differ, `old` is true for version 1.
// No entry point: the crate above shows that what is looked at is inside.
//
// The eight bytes of a location, less one, are low if its kind is 1 to 4 and the zero bytes of version 3 are zero. Numbers put together
// bit by bit are low only if each of them is, so that one test answers for all. It serves the crates above and is no entry point: each
// function requires that its bytes are inside.
#![tactic(auto)]

ghost use Rattle.std.specs.Prelude.{◌≡◌, ℕ, ◌+◌, ◌-◌, ◌*◌, ◌^◌, ◌<◌, ◌≤◌, true, [], ◌∷◌, length};
ghost use Rattle.glance.specs.Look.{Rights, Low};
ghost use Rattle.glance.specs.Look as look;

// The place of location number i, of those that begin at `at`.
pub fn place(old: bool, at: usize, i: usize) -> usize
    requires { at + look.size old * i < 2 ^ 64 }
    ensures { result ≡ at + look.size old * i }
{
    if old { at + 8 * i } else { at + 12 * i }
}

// The eight bytes at a place, less one.
pub fn word_less(s: &[u8], at: usize) -> u64
    requires { at + 8 ≤ length s.now }
    ensures { result ≡ look.less s.now at }
{
    wire::u64_at(s, at).wrapping_sub(1)
}

// Whether kinds were 1 to 4, and zero bytes are zero.
pub fn low(old: bool, v: u64) -> bool
    ensures { result ≡ true → Low old v }
{
    if old {
        v % 256 < 4
    } else {
        v < 1 << 48 && v % 65536 < 4
    }
}

// One to three locations: the first, the middle and the last, which may be the same.
fn few(s: &[u8], old: bool, at: usize, count: usize) -> bool
    requires { (at + look.size old * count ≤ length s.now) × (0 < count) × (count < 4) }
    ensures { result ≡ true → (limit : ℕ) → Rights old s.now limit at count }
{
    let a = word_less(s, at);
    let b = word_less(s, place(old, at, count / 2));
    let c = word_less(s, place(old, at, count - 1));
    low(old, a | b | c)
}

// The words of the three locations from `at`, each less one, together.
fn three(s: &[u8], old: bool, at: usize) -> u64
    requires { at + look.size old * 3 ≤ length s.now }
    ensures { Low old result → (limit : ℕ) → Rights old s.now limit at 3 }
{
    let a = word_less(s, at);
    let b = word_less(s, place(old, at, 1));
    let c = word_less(s, place(old, at, 2));
    a | b | c
}

// Where four of five looks at three to fifteen locations begin: after the first three, after six, before the last three, and the last
// three; worked out in bytes, without a branch. The first look begins with the first location; they may overlap.
fn spread(old: bool, at: usize, count: usize) -> [usize; 4]
    requires { (at + look.size old * count < 2 ^ 64) × (3 ≤ count) }
    ensures { result ≡ (at + look.size old * (3 - (6 - count))) ∷ (at + look.size old * (6 - (9 - count)))
        ∷ (at + look.size old * (count - 6)) ∷ (at + look.size old * (count - 3)) ∷ [] }
{
    let three = place(old, 0, 3);
    let six = place(old, 0, 6);
    let last = place(old, 0, count) - three;
    let second = three.min(last);
    let third = six.min(last);
    let fourth = last - second;
    [at + second, at + third, at + fourth, at + last]
}

// Three to fifteen locations, by five looks and one test. (A record of three locations costs no branch: statepoints without pairs have
// three, and those with pairs more.) Each of the two versions is compiled into its one caller, with the size of its locations.
fn fifteen<const OLD: bool>(s: &[u8], at: usize, count: usize) -> bool
    requires { (at + look.size OLD * count ≤ length s.now) × (3 ≤ count) × (count ≤ 15) }
    ensures { result ≡ true → (limit : ℕ) → Rights OLD s.now limit at count }
{
    let [second, third, fourth, last] = spread(OLD, at, count);
    let v = three(s, OLD, at);
    let w = three(s, OLD, second);
    let x = three(s, OLD, third);
    let y = three(s, OLD, fourth);
    let z = three(s, OLD, last);
    low(OLD, v | w | (x | y) | z)
}

// Whether up to fifteen locations from `at` are right and none is a ConstIndex.
pub fn plain<const OLD: bool>(s: &[u8], at: usize, count: usize) -> bool
    requires { (at + look.size OLD * count ≤ length s.now) × (0 < count) }
    ensures { result ≡ true → (limit : ℕ) → Rights OLD s.now limit at count }
{
    if count < 3 {
        return few(s, OLD, at, count);
    }
    count <= 15 && fifteen::<OLD>(s, at, count)
}
