// An answer's bytes, and the auditor's comparison of two answers.
ghost use Rattle.std.specs.Prelude.{◌≡◌, ◌+◌, ◌≤◌, length};
ghost use Rattle.std.proofs.lemmas.List.Edits.{sets};
ghost use Rattle.sheet_lines.specs.Answers.{head_length, answer_length, answer_at, head_bytes, answer_bytes, marks_ok, same_number, same_zones, same_totals, agrees};

use battery::{Answer, Battery};
use card::Card;

// Place of the outlet's mark.
const MARK: usize = 9;

#[tactic(auto, unfolding(crate::specs::Answers::head_length))]
pub fn head_length(version: u8) -> usize
    ensures { result ≡ head_length version }
{
    30
}

#[tactic(auto, unfolding(crate::specs::Answers::head_length, crate::specs::Answers::answer_length, sheet_records::specs::Records::state_length))]
pub fn answer_length(version: u8, card: Card) -> usize
    ensures { result ≡ answer_length version card }
{
    head_length(version) + sheet_records::state_length(version, card)
}

#[tactic(auto, unfolding(crate::specs::Answers::answer_length, crate::specs::Answers::answer_at, sheet_records::specs::Records::state_length))]
pub fn read_answer(version: u8, card: Card, bytes: &[u8]) -> Answer
    requires { (card.layers ≤ 64) × (answer_length version card ≤ length bytes.now) }
    ensures { result ≡ answer_at version card bytes.now }
{
    let at = head_length(version);
    let battery = sheet_records::read_state(version, card, bytes, at);
    Answer {
        refusal: bytes[0],
        energy: codec::read_f64(bytes, 1),
        mark: bytes[MARK],
        outlet: codec::read_f64(bytes, MARK + 1),
        time: codec::read_f64(bytes, 18),
        substeps: codec::read_u32(bytes, 26),
        battery,
    }
}

// Refusal 42's test of the outlet's mark.
#[tactic(auto, unfolding(crate::specs::Answers::head_length, crate::specs::Answers::marks_ok))]
pub fn marks_ok(version: u8, bytes: &[u8]) -> bool
    requires { head_length version ≤ length bytes.now }
    ensures { result ≡ marks_ok version bytes.now }
{
    sheet_calls::mark_ok(bytes, MARK)
}

#[tactic(auto, unfolding(crate::specs::Answers::head_length))]
fn put_head(version: u8, bytes: &mut [u8], at: usize, answer: Answer) -> usize
    requires { at + head_length version ≤ length bytes.old }
    ensures { (result ≡ at + head_length version) × (bytes.new ≡ sets bytes.old at (head_bytes answer)) }
{
    let p1 = codec::put_u8(bytes, at, answer.refusal);
    let p2 = codec::put_f64(bytes, p1, answer.energy);
    let p3 = codec::put_u8(bytes, p2, answer.mark);
    let p4 = codec::put_f64(bytes, p3, answer.outlet);
    let p5 = codec::put_f64(bytes, p4, answer.time);
    codec::put_u32(bytes, p5, answer.substeps)
}

// Writes an answer from a place on, and returns the place after it.
#[tactic(auto, unfolding(crate::specs::Answers::answer_length))]
pub fn put_answer(version: u8, bytes: &mut [u8], at: usize, answer: Answer) -> usize
    requires { (answer.battery.card.layers ≤ 64) × (at + answer_length version answer.battery.card ≤ length bytes.old) }
    ensures { (result ≡ at + answer_length version answer.battery.card) × (bytes.new ≡ sets bytes.old at (answer_bytes version answer)) }
{
    let b = answer.battery;
    let p = put_head(version, bytes, at, answer);
    sheet_records::put_state(version, bytes, p, b)
}

// Document 01: 'Numbers agree when f64 equality holds'. Not a derived PartialEq: `agrees` takes the comparison of numbers as an argument, to which a derive can't be tied.
#[tactic(auto, unfolding(crate::specs::Answers::same_number))]
fn same_number(x: f64, y: f64) -> bool
    ensures { result ≡ same_number x y }
{
    x == y
}

#[tactic(auto, unfolding(crate::specs::Answers::same_zones))]
fn same_zones(x: &[f64], y: &[f64]) -> bool
    requires { length x.now ≡ length y.now }
    ensures { result ≡ same_zones same_number x.now y.now (length x.now) }
{
    let mut ok = true;
    for (a, b) in x.iter().zip(y) {
        ok = ok & same_number(*a, *b);
    }
    ok
}

#[tactic(auto, unfolding(crate::specs::Answers::same_totals))]
fn same_totals(x: Battery, y: Battery) -> bool
    ensures { result ≡ same_totals same_number x y }
{
    same_number(x.total, y.total)
        & same_number(x.pump, y.pump)
        & same_number(x.direct, y.direct)
        & same_number(x.charged, y.charged)
        & same_number(x.electric, y.electric)
}

// Whether two answers agree; the zones compared are those of the first one's layers.
#[tactic(auto, unfolding(crate::specs::Answers::agrees), using(crate::proofs::Agreement::same_zones_front))]
pub fn answers_agree(x: Answer, y: Answer) -> bool
    requires { x.battery.card.layers ≤ 64 }
    ensures { result ≡ agrees same_number x y }
{
    let b = x.battery;
    let c = y.battery;
    let n = b.card.layers as usize;
    let run = same_number(x.time, y.time)
        & (x.substeps == y.substeps)
        & same_zones(&b.zones[..n], &c.zones[..n])
        & same_totals(b, c);
    (x.refusal == y.refusal)
        & same_number(x.energy, y.energy)
        & (x.mark == y.mark)
        & same_number(x.outlet, y.outlet)
        & run
}
