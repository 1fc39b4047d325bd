// The move table: two lent lists of 64-bit numbers, old starts and new starts.
// `look_up` is no entry point: it requires what `table_right` has tested once, so that it can search by halving.
ghost use Rattle.std.specs.Prelude.{◌≡◌, true};
ghost use Rattle.moves.specs.Table.{rising, table_right, look_up};
ghost use Rattle.moves.specs.Arrays.{as_option};

use moves::TABLE_MOST;

// Whether the numbers rise strictly from above 0.
fn rises(olds: &[u64]) -> bool
    ensures { result ≡ rising 0 olds.now }
{
    let mut last = 0;
    for &old in olds {
        if old <= last {
            return false;
        }
        last = old;
    }
    true
}

// The test of refusal 14.
pub fn table_right(olds: &[u64], news: &[u64]) -> bool
    ensures { result ≡ table_right olds.now news.now }
{
    olds.len() == news.len() && olds.len() <= TABLE_MOST && rises(olds) && !news.contains(&0)
}

// Where the object of an old base is now, by halving; 0 stays 0.
pub fn look_up(olds: &[u64], news: &[u64], base: u64) -> Option<u64>
    requires { table_right olds.now news.now ≡ true }
    ensures { as_option result ≡ look_up olds.now news.now base }
{
    if base == 0 {
        return Some(0);
    }
    match olds.binary_search(&base) {
        Ok(i) => Some(news[i]),
        Err(_) => None,
    }
}
