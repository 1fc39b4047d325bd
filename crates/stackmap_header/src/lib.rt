// The header, and the sum of the functions' record counts.
// `counts_add_up` is no entry point: it requires the functions, which 4 has tested.
#![tactic(auto)]

ghost use Rattle.std.specs.Prelude.{◌≡◌, false, ◌+◌, ◌*◌, ◌≤◌, length, eqb};
ghost use Rattle.stackmap.specs.Layout.{header_size, function_size};
ghost use Rattle.stackmap.specs.Verdict.{verdict};
ghost use Rattle.stackmap.specs.Fields.{many};
ghost use Rattle.stackmap.specs.Section.{read_function, counted};
ghost use Rattle.stackmap.specs.Check.{header_check};

use refusals::{Cause, Refusal};
use stackmap::layout;

// Refusals 1, 2 and 3.
pub fn check_header(s: &[u8]) -> Result<usize, Refusal>
    ensures { verdict result ≡ header_check s.now }
{
    if s.len() < layout::HEADER_SIZE || s.len() > layout::SECTION_MOST {
        return Err(Refusal(Cause::WrongLength, 0));
    }
    let version = s[0];
    if version != layout::VERSION && version != layout::OLD_VERSION {
        return Err(Refusal(Cause::UnknownVersion, 0));
    }
    stackmap_parts::zero_bytes(s, 1, 3)
}

// Whether the record counts of the first `functions` functions add up to `total`, exactly.
pub fn counts_add_up(s: &[u8], functions: usize, total: u64) -> bool
    requires { header_size + function_size false * functions ≤ length s.now }
    ensures { result ≡ eqb (counted (many (read_function false) (function_size false) functions s.now header_size)) total }
{
    let mut rest = total;
    for f in 0..functions {
        let at = layout::HEADER_SIZE + layout::FUNCTION_SIZE * f;
        let count = wire::u64_at(s, at + layout::RECORD_COUNT_AT);
        if count > rest {
            return false;
        }
        rest -= count;
    }
    rest == 0
}
