// What the report's tool writes: the nine lines of document 02, request 10, or only the line that says 34 and its position.
#![tactic(auto)]

ghost use Rattle.std.specs.Prelude.{◌≡◌, ◌+◌, ◌≤◌, length};
ghost use Rattle.std.proofs.lemmas.List.Edits.{sets};
ghost use Rattle.decimal.specs.Line.{line};
ghost use Rattle.report_lines.specs.Lines.{named, head, kinds_line, report_text, written, output_room};

use report::{Kinds, Reported, Totals};

// Writes a name and a number at a place, and gives the place after them.
fn put_named(out: &mut [u8], at: usize, name: &[u8], n: u64) -> usize
    requires { at + length name.now + 20 ≤ length out.old }
    ensures { (result ≡ at + length (named name.now n)) × (out.new ≡ sets out.old at (named name.now n)) × (result ≤ at + length name.now + 20) }
{
    let next = decimal::put_text(out, at, name);
    decimal::put_digits(out, next, n as usize, 20)
}

// The lines before that of the kinds.
fn put_head(out: &mut [u8; 512], t: Totals) -> usize
    ensures { (result ≡ length (head t)) × (out.new ≡ sets out.old 0 (head t)) × (result ≤ 180) }
{
    let mut next = put_named(out, 0, b"sections ", t.sections);
    next = put_named(out, next, b"\nrefused ", t.refused);
    next = put_named(out, next, b"\nfunctions ", t.functions);
    next = put_named(out, next, b"\nrecords ", t.records);
    next = put_named(out, next, b"\nstatepoints ", t.statepoints);
    put_named(out, next, b"\npairs ", t.pairs)
}

fn put_kinds(out: &mut [u8; 512], at: usize, k: Kinds) -> usize
    requires { at ≤ 180 }
    ensures { (result ≡ at + length (kinds_line k)) × (out.new ≡ sets out.old at (kinds_line k)) × (result ≤ 300) }
{
    let mut next = put_named(out, at, b"\nkinds ", k.register);
    next = put_named(out, next, b" ", k.direct);
    next = put_named(out, next, b" ", k.indirect);
    next = put_named(out, next, b" ", k.constant);
    put_named(out, next, b" ", k.pool)
}

fn put_report(out: &mut [u8; 512], t: Totals) -> usize
    ensures { (result ≡ length (report_text t)) × (out.new ≡ sets out.old 0 (report_text t)) × (result ≤ output_room) }
{
    let kinds = t.kinds;
    let mut next = put_head(out, t);
    next = put_kinds(out, next, kinds);
    next = put_named(out, next, b"\nstack ", t.stack);
    next = put_named(out, next, b"\nunknown ", t.unknown);
    decimal::put_text(out, next, b"\n")
}

fn put_refused(out: &mut [u8; 512], number: u64, place: u64) -> usize
    ensures { (result ≡ length (line number place)) × (out.new ≡ sets out.old 0 (line number place)) × (result ≤ output_room) }
{
    let mut next = put_named(out, 0, b"refused ", number);
    next = put_named(out, next, b" at ", place);
    decimal::put_text(out, next, b"\n")
}

// What the tool writes for an answer, and how long that is.
pub fn lines(out: &mut [u8; 512], r: Reported) -> usize
    ensures { (result ≡ length (written r)) × (out.new ≡ sets out.old 0 (written r)) × (result ≤ output_room) }
{
    let totals = r.totals;
    if r.number == 0 {
        return put_report(out, totals);
    }
    put_refused(out, r.number, r.place)
}
