// What the program writes for a given input: the listing, or the line that says the refusal.
#![tactic(auto)]

ghost use Rattle.std.specs.Prelude.{◌≡◌, ◌≤◌, length};
ghost use Rattle.std.proofs.lemmas.List.Edits.{sets};
ghost use Rattle.decimal.specs.Line.{line};
ghost use Rattle.program.specs.Program.{written, output_room};

// The longest section that the program reads.
const INPUT_MOST: usize = 40960;

// Writes the line that says a refusal, and gives its length.
fn put_line(out: &mut [u8; 65536], number: usize, place: usize) -> usize
    ensures { (result ≡ length (line number place)) × (out.new ≡ sets out.old 0 (line number place)) × (result ≤ 53) }
{
    let mut next = decimal::put_text(out, 0, b"refused ");
    next = decimal::put_digits(out, next, number, 20);
    next = decimal::put_text(out, next, b" at ");
    next = decimal::put_digits(out, next, place, 20);
    out[next] = b'\n';
    next + 1
}

// What the program writes for its input, and how long that is.
pub fn answer(input: &[u8], out: &mut [u8; 65536]) -> usize
    ensures { (result ≡ length (written input.now)) × (out.new ≡ sets out.old 0 (written input.now)) × (result ≤ output_room) }
{
    if input.len() > INPUT_MOST {
        return put_line(out, 1, 0);
    }
    let c = lister::to_listing(input, out);
    if c.number != 0 {
        return put_line(out, usize::from(c.number), c.place);
    }
    c.written
}
