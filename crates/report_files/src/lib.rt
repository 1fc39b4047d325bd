// The report's tool over the files that its arguments name, each of at most 65,536 bytes; a longer or unreadable one counts as refused.
// What an operating system call reads is outside every contract; all that matters is in `report_totals` and `report_lines`.
#![tactic(auto)]

ghost use Rattle.std.specs.Prelude.{◌≡◌, ◌≤◌, ◌<◌, ◌⊎◌, [], length, IfSome};
ghost use Rattle.report.specs.Totals.{add_section};

use report::{Kinds, Reported, Totals};
use std::env::FillError;
use std::io::{Print, Read, Write};
use std::rt::{Env, Files};
use std::{fs, io, str};

// One byte more than a file may have, so that a longer one is seen.
const ROOM: usize = 65537;

// Room for a file's name. A longer one names no file.
const NAME_ROOM: usize = 4096;

// A file that can't be read counts as a refused section, as no bytes are one.
fn add_refused(totals: Totals) -> Reported
    ensures { result ≡ add_section [] totals }
{
    report_totals::add(&[], totals)
}

// What was read of a file that ended, or as much of it as there is room for: it counts, but where it is longer than a file may be.
fn add_read(bytes: &[u8], totals: Totals) -> Reported
    ensures whole { length bytes.now ≤ 65536 → result ≡ add_section bytes.now totals }
    ensures longer { 65536 < length bytes.now → result ≡ add_section [] totals }
{
    if bytes.len() < ROOM {
        report_totals::add(bytes, totals)
    } else {
        add_refused(totals)
    }
}

// The file's bytes count where they all came: no read failed, and none came beyond the most that a file may have.
fn add_open<R: Read>(file: &mut R, totals: Totals) -> Reported
    ensures { IfSome (R.remaining file.old) (λ bytes. (result ≡ add_section [] totals)
        ⊎ ((length bytes ≤ 65536) × (result ≡ add_section bytes totals))) }
{
    let mut bytes = [0u8; ROOM];
    match inputs::read_full(file, &mut bytes) {
        Ok(n) => add_read(&bytes[..n], totals),
        Err(_) => add_refused(totals),
    }
}

// The file that argument i names, where it can be opened. A name that is no UTF-8 can't be passed to `fs`.
fn open_file<R: Env + Files>(rt: &R, i: usize) -> Option<R::File> {
    let mut name = [0u8; NAME_ROOM];
    let n = rt.arg(i, &mut name).ok()?;
    let path = str::from_utf8(&name[..n]).ok()?;
    fs::open(rt, path).ok()
}

// The file that argument i names.
fn add_file(rt: &(impl Env + Files), i: usize, totals: Totals) -> Reported {
    match open_file(rt, i) {
        Some(mut file) => add_open(&mut file, totals),
        None => add_refused(totals),
    }
}

// How many arguments there are, the program's own name among them.
fn arg_count(rt: &impl Env) -> usize {
    (0..usize::MAX)
        .find(|&i| matches!(rt.arg(i, &mut []), Err(FillError::NotPresent)))
        .unwrap_or(usize::MAX)
}

// All files in order; 34 ends the report.
fn files(rt: &(impl Env + Files), count: usize) -> Reported {
    let mut report = Reported {
        number: 0,
        place: 0,
        totals: Totals {
            sections: 0,
            refused: 0,
            functions: 0,
            records: 0,
            statepoints: 0,
            pairs: 0,
            kinds: Kinds {
                register: 0,
                direct: 0,
                indirect: 0,
                constant: 0,
                pool: 0,
            },
            stack: 0,
            unknown: 0,
        },
    };
    for i in 1..count {
        let totals = report.totals;
        report = add_file(rt, i, totals);
        if report.number != 0 {
            return report;
        }
    }
    report
}

pub fn run(rt: &(impl Env + Files + Print)) -> io::Result<()> {
    let report = files(rt, arg_count(rt));
    let mut out = [0; 512];
    let n = report_lines::lines(&mut out, report);
    io::writer(rt).write_all(&out[..n])
}
