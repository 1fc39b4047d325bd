// The monthly report of the files that the arguments name. The gate runs it on row C of the worked table alone.
#![tactic(auto)]

use std::io;

fn main(rt: HostRuntime) -> io::Result<()> {
    report_files::run(&rt)
}
