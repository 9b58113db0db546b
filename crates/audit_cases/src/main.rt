// Audits the stored sheets that its arguments name, and prints each name with the audit program's line.
#![tactic(auto)]

use std::io::Write;
use std::rt::Files;
use std::{env, fs, io};

// One argument: its sheet's name and report.
fn report_argument<R: Files, W: Write>(rt: &R, path: &str, out: &mut W) -> io::Result<()> {
    write!(out, "{path}: ")?;
    match fs::open(rt, path) {
        Ok(mut file) => audit_report::report_on(&mut file, out),
        Err(_) => writeln!(out, "no such file"),
    }
}

fn main(rt: HostRuntime) -> io::Result<()> {
    let mut out = rt.stdout();
    for path in env::args(&rt)?.skip(1) {
        report_argument(&rt, path.as_str(), &mut out)?;
    }
    Ok(())
}
