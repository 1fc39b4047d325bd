// The same tool on files at the edges: exactly 65,536 and 65,537 bytes, one that is absent, a directory, one named twice.
#![tactic(auto)]

use std::io;

fn main(rt: HostRuntime) -> io::Result<()> {
    report_files::run(&rt)
}
