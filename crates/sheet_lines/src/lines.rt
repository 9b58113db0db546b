// A sheet's opening and its call lines.
ghost use Rattle.std.specs.Prelude.{◌≡◌, ◌+◌, ◌≤◌, ◌<◌, length};
ghost use Rattle.codec.specs.Bytes.{over};
ghost use Rattle.sheet_records.specs.Cards.{card_length};
ghost use Rattle.sheet_lines.specs.Lines.{line_length, line_size, line_bytes, opening_length, opening_bytes};

use battery::Answer;
use card::Card;

// What follows the length of a line whose call has n bytes.
#[tactic(auto, unfolding(crate::specs::Lines::line_length, crate::specs::Answers::answer_length, crate::specs::Answers::head_length, sheet_records::specs::Records::state_length))]
pub fn line_length(version: u8, card: Card, n: usize) -> usize
    requires { n < 65536 }
    ensures { result ≡ line_length version card n }
{
    n + crate::answers::answer_length(version, card)
}

// The bytes that such a line takes, its length included.
#[tactic(auto, unfolding(crate::specs::Lines::line_size, crate::specs::Lines::line_length, crate::specs::Answers::answer_length, crate::specs::Answers::head_length, sheet_records::specs::Records::state_length))]
pub fn line_size(version: u8, card: Card, n: usize) -> usize
    requires { n < 65536 }
    ensures { result ≡ line_size version card n }
{
    2 + line_length(version, card, n)
}

// A call line, with the call's own bytes, at the front of a memory that has room for it.
#[tactic(auto, unfolding(crate::specs::Lines::line_size, crate::specs::Lines::line_length))]
pub fn put_line(version: u8, sheet: &mut [u8], call: &[u8], answer: Answer)
    requires { (answer.battery.card.layers ≤ 64) × (length call.now < 65536) × (line_size version answer.battery.card (length call.now) ≤ length sheet.old) }
    ensures { sheet.new ≡ over (line_bytes version call.now answer) sheet.old }
{
    let card = answer.battery.card;
    let n = line_length(version, card, call.len());
    let p1 = codec::put_be(sheet, 0, 2, n as u64);
    let p2 = codec::put_bytes(sheet, p1, call);
    crate::answers::put_answer(version, sheet, p2, answer);
}

// The bytes of the version and line 0, with the card at the front of the bytes.
#[tactic(auto, unfolding(crate::specs::Lines::opening_length))]
pub fn opening_length(version: u8, bytes: &[u8]) -> usize
    ensures { result ≡ opening_length version bytes.now }
{
    3 + sheet_records::cards::card_length(version, bytes)
}

// The version and line 0, with the caller's own card bytes, at the front of a memory that has room for them.
#[tactic(auto, unfolding(crate::specs::Lines::opening_length))]
pub fn put_opening(version: u8, sheet: &mut [u8], card: &[u8])
    requires { (length card.now ≡ card_length version card.now) × (opening_length version card.now ≤ length sheet.old) }
    ensures { sheet.new ≡ over (opening_bytes version card.now) sheet.old }
{
    let n = sheet_records::cards::card_length(version, card);
    let p1 = codec::put_u8(sheet, 0, version);
    let p2 = codec::put_be(sheet, p1, 2, n as u64);
    codec::put_bytes(sheet, p2, card);
}
