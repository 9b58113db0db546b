// The walk over the lines.
ghost use Rattle.std.specs.Prelude.{◌≡◌};
ghost use Rattle.card.specs.Card.{card_refusal};
ghost use Rattle.sheet_records.specs.Cards.{extension_at};
ghost use Rattle.sheet_lines.specs.Answers.{same_number};
ghost use Rattle.auditor.specs.Audit.{audit_lines};
ghost use Rattle.auditor.specs.Verdicts.{numbered};

use crate::{Refused, Verdict};
use card::Card;
use refusals::Refusal;
use sheet_records::cards::CardBytes;

// Steps an own battery of an accepted card, with line 0's bytes for its extension, through the lines. It stays accepted, so that a line's call is all
// that 10 tests.
pub fn audit_lines(card: Card, line0: CardBytes<'_>, bytes: &[u8]) -> Verdict
    requires { card_refusal line0.version card ≡ 0 }
    ensures { numbered result ≡ audit_lines same_number line0.entry.version (extension_at line0.entry.version line0.entry.bytes.now) card bytes.now }
{
    let version = line0.version;
    let mut rest = bytes;
    let mut b = battery::fresh(card);
    let mut k: usize = 0;
    // a line's length is known only once its kind is read, so no method of slices cuts the lines
    while !rest.is_empty() {
        let line = k + 1;
        let bad_line: Verdict = Err(Refused {
            refusal: Refusal::BadLine,
            line,
        });
        let Some(head) = sheet_lines::front::line_head(version, card, rest) else {
            return bad_line;
        };
        let Some(call) = sheet_lines::front::line_call(card, line0, Some(head), rest) else {
            return bad_line;
        };
        let own = engine::steps::advance(version, b, call);
        if own.refusal == Refusal::BadCall.number() {
            return bad_line;
        }
        let seen = sheet_lines::front::line_answer(version, card, head, rest);
        if !sheet_lines::answers::answers_agree(seen, own) {
            return Err(Refused {
                refusal: Refusal::Disagrees,
                line,
            });
        }
        b = own.battery;
        rest = &rest[head.size..];
        k = line;
    }
    Ok(k)
}
