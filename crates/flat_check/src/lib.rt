// The check of a flat section. The functions of the modules are no entry points: they require what the tests before them have shown.
#![tactic(auto)]

ghost use Rattle.std.specs.Prelude.{◌≡◌};
ghost use Rattle.flat_check.specs.Check.{flat_check};

use flat::{layout, offsets};

mod ranges;
mod reserved;

// The check of a whole section: the number of the refusal, 36 to 40 in document 02's order, or 0.
// Kept: a number and no Result, since the contract equals it with the definition `flat_check`, which C gets.
pub fn check(s: &[u8]) -> u8
    ensures { result ≡ flat_check s.now }
{
    if s.len() < layout::SECTION_LEAST || s.len() > layout::SECTION_MOST {
        return 36;
    }
    if s[0] != layout::VERSION {
        return 37;
    }
    if !offsets::fronts_right(s) {
        return 38;
    }
    let registers = offsets::num_registers(s);
    if !offsets::offsets_right(s, registers) {
        return 38;
    }
    if !ranges::ranges_right(s) {
        return 39;
    }
    if !reserved::reserved_clear(s, registers) {
        return 40;
    }
    0
}
