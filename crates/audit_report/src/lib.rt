// The line that the audit program prints for a sheet.
#![tactic(auto)]

ghost use Rattle.std.specs.Prelude.{◌≡◌, ◌+◌, ◌≤◌, length};
ghost use Rattle.std.specs.Prelude.{OnOk};
ghost use Rattle.std.proofs.lemmas.List.Edits.{sets};
ghost use Rattle.io.specs.Counts.{IsPrefixLen};
ghost use Rattle.codec.specs.Bytes.{over};
ghost use Rattle.auditor.specs.Verdicts.{numbered};
ghost use Rattle.audit_report.specs.Report.{decimal, says_accepted, says_refused, says, report_of};
ghost use Rattle.audit_report.specs.Reports.{Reports};

use auditor::Verdict;
use std::io::{Read, Write};

// Writes a number's decimal digits from a place on, and returns the place after them.
// No `Display`, here and below: `write!` to lent bytes promises nothing of them, and these promise which they are and that those after them stay.
#[tactic(auto, using(crate::proofs::Texts::few_digits, crate::proofs::Texts::spelled))]
fn put_decimal(out: &mut [u8], at: usize, n: u64) -> usize
    requires { at + 20 ≤ length out.old }
    ensures { (result ≡ at + length (decimal n)) × (out.new ≡ sets out.old at (decimal n)) }
{
    // an array, as there is no heap: the longest number has 20 digits
    let mut text = [0u8; 20];
    let k = io::decimal(n, &mut text);
    codec::put_bytes(out, at, &text[..k])
}

fn put_accepted(out: &mut [u8; 64], n: u64) -> usize
    ensures { (result ≡ length (says_accepted n)) × (out.new ≡ over (says_accepted n) out.old) }
{
    let p = codec::put_bytes(out, 0, b"accepted ");
    let q = put_decimal(out, p, n);
    codec::put_bytes(out, q, b"\n")
}

// Numbers and no `Refused`: the definition of the text has them.
fn put_refused(out: &mut [u8; 64], refusal: u64, index: u64) -> usize
    ensures { (result ≡ length (says_refused refusal index)) × (out.new ≡ over (says_refused refusal index) out.old) }
{
    let p = codec::put_bytes(out, 0, b"refused ");
    let q = put_decimal(out, p, refusal);
    let s = codec::put_bytes(out, q, b" line ");
    let t = put_decimal(out, s, index);
    codec::put_bytes(out, t, b"\n")
}

#[tactic(auto, using(crate::proofs::Texts::says_accepted_lem, crate::proofs::Texts::says_refused_lem))]
fn put_verdict(out: &mut [u8; 64], verdict: Verdict) -> usize
    ensures { (result ≡ length (says (numbered verdict))) × (out.new ≡ over (says (numbered verdict)) out.old) }
{
    match verdict {
        Ok(n) => put_accepted(out, n as u64),
        Err(refused) => put_refused(out, refused.refusal.number() as u64, refused.line as u64),
    }
}

// The report on a sheet at the front of out, and how many bytes it has. The bytes after it stay.
pub fn report(sheet: &[u8], out: &mut [u8; 64]) -> usize
    ensures counts { IsPrefixLen result out.new }
    ensures says { (result ≡ length (report_of sheet.now)) × (out.new ≡ over (report_of sheet.now) out.old) }
{
    let v = auditor::audit_limited(sheet);
    put_verdict(out, v)
}

// Reads a sheet of at most 65,536 bytes and writes the report on it.
#[tactic(auto, using(crate::proofs::Texts::taken))]
pub fn report_on<R: Read, W: Write>(reader: &mut R, out: &mut W) -> std::io::Result<()>
    ensures { OnOk result (Reports (R.remaining reader.old) (R.remaining reader.new) (W.contents out.old) (W.contents out.new)) }
{
    // No heap, so arrays: one byte more than the limit, so that a longer sheet is seen, and 64 for the longest report.
    let mut sheet = [0u8; 65537];
    let n = reading::read_full(reader, &mut sheet)?;
    let mut line = [0u8; 64];
    let k = report(&sheet[..n], &mut line);
    out.write_all(&line[..k])
}
