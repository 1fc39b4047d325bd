// The same tool without arguments.
#![tactic(auto)]

use std::io;

fn main(rt: HostRuntime) -> io::Result<()> {
    report_files::run(&rt)
}
