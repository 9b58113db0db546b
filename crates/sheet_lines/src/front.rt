// The call line at the front of a slice.
ghost use Rattle.std.specs.Prelude.{◌≡◌, ◌≤◌, length, Some};
ghost use Rattle.sheet_records.specs.Cards.{extension_at};
ghost use Rattle.sheet_lines.specs.Front.{head_numbers, line_head, line_call, line_answer};

use battery::{Answer, Call};
use card::Card;
use sheet_calls::kind::Kind;
use sheet_records::cards::CardBytes;

// What a line's first bytes tell: its kind, the length of its call, and its own, which counts the two bytes that say it.
#[derive(Clone, Copy)]
pub struct LineHead {
    pub kind: Kind,
    pub call: usize,
    pub size: usize,
}

// The head of a front line whose kind is known, that is whole, and that says the length that its kind gives.
#[tactic(auto, unfolding(sheet_records::specs::Records::state_length, crate::specs::Answers::head_length, crate::specs::Answers::answer_length, crate::specs::Lines::line_length, crate::specs::Lines::line_size, crate::specs::Front::head_ok, crate::specs::Front::line_head), using(sheet_calls::proofs::Places::call_short, sheet_calls::proofs::Places::call_long))]
pub fn line_head(version: u8, card: Card, bytes: &[u8]) -> Option<LineHead>
    ensures { head_numbers result ≡ line_head version card bytes.now }
{
    let Ok(kind) = Kind::try_from(codec::byte_or_zero(bytes, 2)) else {
        return None;
    };
    let call = sheet_calls::call_length(version, u8::from(kind));
    let follows = crate::lines::line_length(version, card, call);
    let size = 2 + follows;
    if bytes.len() < size {
        return None;
    }
    let says = codec::read_be(bytes, 0, 2);
    if says == (follows as u64) {
        return Some(LineHead { kind, call, size });
    }
    None
}

// The front line's call, by the extension of the card in line 0, ranges aside. The head may be none: the definition answers then too.
pub fn line_call(
    card: Card,
    line0: CardBytes<'_>,
    head: Option<LineHead>,
    bytes: &[u8],
) -> Option<Call>
    requires { head_numbers head ≡ line_head line0.version card bytes.now }
    ensures { result ≡ line_call line0.entry.version (extension_at line0.entry.version line0.entry.bytes.now) card bytes.now }
{
    let version = line0.version;
    let Some(head) = head else {
        return None;
    };
    let answer = 2 + head.call;
    if crate::answers::marks_ok(version, &bytes[answer..head.size]) {
        let kind = u8::from(head.kind);
        let class = sheet_calls::demand_class(version, &line0, kind, &bytes[2..answer]);
        let floor = card::extension::has_floor(&line0);
        return sheet_calls::call_by(version, kind, class, floor, &bytes[2..answer]);
    }
    None
}

// The front line's answer.
pub fn line_answer(version: u8, card: Card, head: LineHead, bytes: &[u8]) -> Answer
    requires { (card.layers ≤ 64) × (head_numbers (Some head) ≡ line_head version card bytes.now) }
    ensures { result ≡ line_answer version card bytes.now }
{
    let answer = 2 + head.call;
    crate::answers::read_answer(version, card, &bytes[answer..head.size])
}
