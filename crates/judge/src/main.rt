// Reads a log file from standard input, and prints the report on it.
#![tactic(auto)]

use std::io;
use std::io::Read;

// One byte more than a file may have, so that a longer one is seen to be longer.
const MOST: u64 = files::MOST_BYTES as u64 + 1;

fn main(rt: HostRuntime) -> io::Result<()> {
    let mut file = Vec::new(rt.alloc());
    rt.stdin().take(MOST).read_to_end(&mut file)?;
    let report = files::report(rt.alloc(), file.as_slice())?;
    rt.print(report)
}
