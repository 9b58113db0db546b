// Laboratory B's auditor: it reads calls from the sheet and steps its own battery.
#![tactic(auto)]

pub mod lines;

ghost use Rattle.std.specs.Prelude.{◌≡◌};
ghost use Rattle.auditor.specs.Audit.{card_line, audit_of, limit, limited_audit_of, verdict_word, verdict_fields};
ghost use Rattle.auditor.specs.Rules.{plain};
ghost use Rattle.auditor.specs.Bound.{IndexAtMost};
ghost use Rattle.auditor.specs.Verdicts.{numbered};

use card::Card;
use refusals::Refusal;
use sheet_records::cards::CardBytes;

// Why a sheet is refused, and the index of the line that is.
#[derive(Clone, Copy)]
pub struct Refused {
    pub refusal: Refusal,
    pub line: usize,
}

// The lines that agree, or the refusal.
pub type Verdict = Result<usize, Refused>;

// Line 0: its accepted card, and where the lines after it begin.
#[derive(Clone, Copy)]
struct CardLine {
    card: Card,
    end: usize,
}

// A verdict in numbers, for C.
#[repr(C)]
#[derive(Clone, Copy)]
pub struct AuditVerdict {
    // 0 for none; a number, since C reads it
    pub refusal: u8,
    // the refused line's index, or the number of call lines
    pub line: u64,
}

impl From<Verdict> for AuditVerdict {
    ghost from_gives = { λ verdict fields. fields ≡ verdict_fields (numbered verdict) };

    #[tactic(auto, unfolding(crate::specs::Audit::verdict_fields))]
    fn from(verdict: Verdict) -> AuditVerdict {
        match verdict {
            Ok(n) => AuditVerdict {
                refusal: 0,
                line: n as u64,
            },
            Err(refused) => AuditVerdict {
                refusal: refused.refusal.number(),
                line: refused.line as u64,
            },
        }
    }
}

// The most bytes that the program and the C audit take.
const LIMIT: usize = 65536;

// Line 0, if it is there in its length and its card is accepted: refusal 41's test.
fn card_line(version: u8, sheet: &[u8]) -> Option<CardLine>
    ensures { result ≡ card_line version sheet.now }
{
    if sheet.len() < 3 {
        return None;
    }
    let n = sheet_records::cards::card_length(version, &sheet[3..]);
    let end = 3 + n;
    if sheet.len() < end {
        return None;
    }
    let says = codec::read_be(sheet, 1, 2);
    if says != (n as u64) {
        return None;
    }
    let line0 = CardBytes {
        version,
        bytes: &sheet[3..end],
    };
    let card = line0.read_card();
    line0.check(card).ok()?;
    Some(CardLine { card, end })
}

// The audit, for a sheet of any length.
pub fn audit(sheet: &[u8]) -> Verdict
    ensures { numbered result ≡ audit_of plain sheet.now }
{
    let version = codec::byte_or_zero(sheet, 0);
    if !card::version::known_version(version) {
        return Err(Refused {
            refusal: Refusal::NoVersion,
            line: 0,
        });
    }
    let Some(line0) = card_line(version, sheet) else {
        return Err(Refused {
            refusal: Refusal::BadCard,
            line: 0,
        });
    };
    let listed = CardBytes {
        version,
        bytes: &sheet[3..line0.end],
    };
    lines::audit_lines(line0.card, listed, &sheet[line0.end..])
}

// The program's and the C entry's audit: 44 beyond the limit.
#[tactic(auto, unfolding(crate::specs::Audit::limited_audit_of))]
pub fn audit_limited(sheet: &[u8]) -> Verdict
    ensures { numbered result ≡ limited_audit_of plain sheet.now }
{
    if LIMIT < sheet.len() {
        return Err(Refused {
            refusal: Refusal::TooLong,
            line: 0,
        });
    }
    audit(sheet)
}

// Document 01: 'K × 256 + R, or N × 256 when it accepts'. No `From`: it asks that the index is within a bound.
#[tactic(auto, unfolding(crate::specs::Audit::verdict_word))]
fn verdict_word(verdict: Verdict) -> u64
    requires { IndexAtMost limit (numbered verdict) }
    ensures { result ≡ verdict_word (numbered verdict) }
{
    match verdict {
        Ok(n) => (n as u64) * 256,
        Err(refused) => (refused.line as u64) * 256 + (refused.refusal.number() as u64),
    }
}

// That word for a sheet.
#[tactic(auto, using(crate::proofs::Bounds::most_limited))]
pub fn limited_audit_word(sheet: &[u8]) -> u64
    ensures { result ≡ verdict_word (limited_audit_of plain sheet.now) }
{
    verdict_word(audit_limited(sheet))
}

// Its refusal and line side by side, for a sheet of any length.
#[tactic(auto, unfolding(crate::specs::Audit::verdict_fields))]
pub fn audit_fields(sheet: &[u8]) -> AuditVerdict
    ensures { result ≡ verdict_fields (audit_of plain sheet.now) }
{
    AuditVerdict::from(audit(sheet))
}
