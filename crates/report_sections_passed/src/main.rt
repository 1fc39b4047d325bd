// The same tool on a sum of stack sizes that is 2^64 - 1 after three sections and would pass it with the fourth.
#![tactic(auto)]

use std::io;

fn main(rt: HostRuntime) -> io::Result<()> {
    report_files::run(&rt)
}
