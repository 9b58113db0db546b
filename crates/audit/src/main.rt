// Reads a sheet of at most 65,536 bytes from standard input and prints the audit's verdict.
#![tactic(auto)]

use std::io;

fn main(rt: HostRuntime) -> io::Result<()> {
    audit_report::report_on(&mut rt.stdin(), &mut rt.stdout())
}
