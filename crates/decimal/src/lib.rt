// Texts and decimal numbers in a buffer, for what the programs write.
// No entry point: each function requires the room that it takes.
#![tactic(auto)]

ghost use Rattle.std.specs.Prelude.{◌≡◌, ◌+◌, ◌^◌, ◌≤◌, ◌<◌, length};
ghost use Rattle.std.proofs.lemmas.List.Edits.{sets};
ghost use Rattle.decimal.specs.Line.{digits};

// Writes a text at a place, and gives the place after it.
pub fn put_text(out: &mut [u8], at: usize, text: &[u8]) -> usize
    requires { at + length text.now ≤ length out.old }
    ensures { (result ≡ at + length text.now) × (out.new ≡ sets out.old at text.now) }
{
    let next = at + text.len();
    out[at..next].copy_from_slice(text);
    next
}

// Writes the decimal digits of `n`, at most `most` of them, and gives the place after them.
pub fn put_digits(out: &mut [u8], at: usize, n: usize, most: usize) -> usize
    requires { (at + most ≤ length out.old) × (0 < most) × (n < 10 ^ most) }
    ensures { (result ≡ at + length (digits most n)) × (out.new ≡ sets out.old at (digits most n)) }
{
    if n < 10 {
        out[at] = b'0' + n as u8;
        return at + 1;
    }
    let next = put_digits(out, at, n / 10, most - 1);
    out[next] = b'0' + (n % 10) as u8;
    next + 1
}
