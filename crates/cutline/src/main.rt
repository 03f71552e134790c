// Prints the listing of the PGM file on standard input, or the line of the fault that stopped it.
#![tactic(auto)]

use listing::list::report;
use std::io;
use std::io::Read;

// The most bytes that are read.
const LIMIT: u64 = 65536;

fn main(rt: HostRuntime) -> io::Result<()> {
    let mut file = Vec::new(rt.alloc());
    rt.stdin().take(LIMIT).read_to_end(&mut file)?;
    rt.write_all(report(&file).as_bytes())
}
