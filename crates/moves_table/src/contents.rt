// The new content of a derived slot, by the table (refusal 21 where the base is unknown).
// No entry point: it requires a table that has passed 14, which is tested once for all pairs.
ghost use Rattle.std.specs.Prelude.{◌≡◌, true};
ghost use Rattle.moves.specs.Table.{table_right, look_up};
ghost use Rattle.moves.specs.Arrays.{as_option, content_of};

use crate::table;

// Old derived + new base - old base, modulo 2^64; unknown if the old base is neither 0 nor an old start.
pub fn content(derived: u64, base: u64, olds: &[u64], news: &[u64]) -> Option<u64>
    requires { table_right olds.now news.now ≡ true }
    ensures { as_option result ≡ content_of (look_up olds.now news.now) derived base }
{
    let to = table::look_up(olds, news, base)?;
    Some(derived.wrapping_add(to.wrapping_sub(base)))
}
