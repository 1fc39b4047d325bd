// Standard input, a section of at most 40,960 bytes, to its listing's raw bytes on standard output, or the line that
// says its refusal. All that matters is in the library `program`.
#![tactic(auto)]

ghost use Rattle.std.specs.Prelude.{IfSome, OnOk};
ghost use Rattle.std.specs.Io.KnownBytes.{Appends};
ghost use Rattle.program.specs.Program.{written};

use std::io;
use std::io::{Read, Write};

// What `program` writes for all that the reader has left. More than 65,536 bytes are not read, for 40,961 are already too many.
fn list<R: Read, W: Write>(from: &mut R, to: &mut W) -> io::Result<()>
    ensures { OnOk result (IfSome (R.remaining from.old)
        (λ xs. Appends (W.contents to.old) (W.contents to.new) (written xs))) }
{
    let mut input = [0u8; 65536];
    let length = inputs::read_full(from, &mut input)?;
    let mut output = [0u8; 65536];
    let written = program::answer(&input[..length], &mut output);
    to.write_all(&output[..written])
}

fn main(rt: HostRuntime) -> io::Result<()> {
    list(&mut rt.stdin(), &mut rt.stdout())
}
