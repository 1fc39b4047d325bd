// All that comes before the records: the header, the functions and the constants.
// `is_old` and `stack_size` are no entry points: they require the header, which 1 has tested, and the functions, which 4 has.
ghost use Rattle.std.specs.Prelude.{◌≡◌, ◌+◌, ◌*◌, ◌≤◌, ◌<◌, length};
ghost use Rattle.stackmap.specs.Layout.{header_size};
ghost use Rattle.stackmap.specs.Section.{num_functions, is_old, constants_at};
ghost use Rattle.stackmap.specs.Walk.{function_number};
ghost use Rattle.stackmap.specs.Verdict.{verdict, chain};
ghost use Rattle.stackmap.specs.Check.{header_check, tables_check};

use refusals::{Cause, Refusal};
use stackmap::layout;

// Whether the section is of version 1.
pub fn is_old(s: &[u8]) -> bool
    requires { header_size ≤ length s.now }
    ensures { result ≡ is_old s.now }
{
    s[0] == layout::OLD_VERSION
}

fn tables(s: &[u8]) -> Result<usize, Refusal>
    requires { header_size ≤ length s.now }
    ensures { verdict result ≡ tables_check s.now }
{
    let functions = wire::u32_at(s, layout::NUM_FUNCTIONS_AT) as usize;
    let constants = wire::u32_at(s, layout::NUM_CONSTANTS_AT) as usize;
    let records = wire::u32_at(s, layout::NUM_RECORDS_AT) as u64;
    let step = layout::function_size(is_old(s));
    let after = layout::HEADER_SIZE + step * functions;
    if after > s.len() {
        let whole = (s.len() - layout::HEADER_SIZE) / step;
        return Err(Refusal(Cause::CutOff, layout::HEADER_SIZE + step * whole));
    }
    let end = after + layout::CONSTANT_SIZE * constants;
    if end > s.len() {
        let whole = (s.len() - after) / layout::CONSTANT_SIZE;
        return Err(Refusal(Cause::CutOff, after + layout::CONSTANT_SIZE * whole));
    }
    if is_old(s) {
        return Ok(end);
    }
    if stackmap_header::counts_add_up(s, functions, records) {
        Ok(end)
    } else {
        Err(Refusal(Cause::WrongCounts, layout::NUM_RECORDS_AT))
    }
}

// All that comes before the records: valid up to the first record's byte.
pub fn begin(s: &[u8]) -> Result<usize, Refusal>
    ensures { verdict result ≡ chain (header_check s.now) (tables_check s.now) }
{
    stackmap_header::check_header(s)?;
    tables(s)
}

// The stack size of function number `function`.
pub fn stack_size(s: &[u8], function: usize) -> u64
    requires { (constants_at s.now ≤ length s.now) × (function < num_functions s.now) }
    ensures { result ≡ (function_number s.now function).stack_size }
{
    let step = layout::function_size(is_old(s));
    wire::u64_at(
        s,
        layout::HEADER_SIZE + step * function + layout::STACK_SIZE_AT,
    )
}
