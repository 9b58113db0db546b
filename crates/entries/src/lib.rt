// What A's entries read and write: the record that is handed in; the opening, a call's line and the record renewed.
#![tactic(auto)]

ghost use Rattle.std.specs.Prelude.{◌≡◌, ◌+◌, ◌≤◌, ◌<◌, length};
ghost use Rattle.refusals.specs.Number.{refused_number};
ghost use Rattle.sheet_records.specs.Cards.{card_length};
ghost use Rattle.sheet_records.specs.Records.{state_length};
ghost use Rattle.card.specs.Card.{card_refusal};
ghost use Rattle.battery.specs.Battery.{battery_accepted};
ghost use Rattle.entries.specs.Entry.{WasAfter, shown_number, open_known, line_after, record_card};

use battery::{Answer, Battery};
use card::Card;
use refusals::Refusal;
use sheet_records::cards::CardBytes;

// Opens a sheet of a known version: its version and card line, and a fresh battery.
pub fn open(version: u8, card: &[u8], record: &mut [u8], sheet: &mut [u8]) -> Result<(), Refusal>
    ensures { WasAfter (open_known version card.now «record».old sheet.old) (refused_number result) «record».new sheet.new }
{
    if card.len() != sheet_records::cards::card_length(version, card) {
        return Err(Refusal::CardOutOfRange);
    }
    let line0 = CardBytes {
        version,
        bytes: card,
    };
    let c = line0.read_card();
    line0.check(c)?;
    if record.len() != sheet_records::record_length(version, c, card) {
        return Err(Refusal::BadCall);
    }
    if sheet.len() < sheet_lines::lines::opening_length(version, card) {
        return Err(Refusal::NoRoom);
    }
    let b = battery::fresh(c);
    sheet_records::put_record(version, record, card, b);
    sheet_lines::lines::put_opening(version, sheet, card);
    Ok(())
}

// The card of a record, read and judged once; none where it is refused, or the record has another length: 10.
#[tactic(auto, unfolding(crate::specs::Entry::record_card, crate::specs::Entry::record_laid))]
pub fn record_card(version: u8, record: &[u8]) -> Option<Card>
    ensures { result ≡ record_card version «record».now }
{
    if record.len() < sheet_records::cards::card_length(version, record) {
        return None;
    }
    let line0 = CardBytes {
        version,
        bytes: record,
    };
    let c = line0.read_card();
    line0.check(c).ok()?;
    if record.len() != sheet_records::record_length(version, c, record) {
        return None;
    }
    Some(c)
}

// Whether a battery of an accepted card and its count is accepted: zones and totals decide.
#[tactic(auto, using(crate::proofs::Checked::finite_decides, battery::proofs::Zones::finite_front, card::proofs::Accepted::accepted_layers))]
pub fn record_accepted(version: u8, battery: Battery) -> bool
    requires { (card_refusal version battery.card ≡ 0) × (battery.count ≡ battery.card.layers) }
    ensures { result ≡ battery_accepted version battery }
{
    let n = battery.card.layers as usize;
    battery::zones_finite(&battery.zones[..n]) & battery::totals_finite(battery.totals())
}

// The line of an answer, and the record renewed: the refusal that the line shows, 0 for none. 10 and 11 have no line and leave every byte.
#[tactic(auto, using(crate::proofs::Entering::line_ten, crate::proofs::Entering::line_room, crate::proofs::Entering::line_refused, crate::proofs::Entering::line_answered))]
pub fn enter(
    version: u8,
    record: &mut [u8],
    call: &[u8],
    sheet: &mut [u8],
    answer: Answer,
) -> Result<u8, Refusal>
    requires { (answer.battery.card.layers ≤ 64) × (length call.now < 65536) × (length «record».old ≡ card_length version «record».old + state_length version answer.battery.card) }
    ensures { WasAfter (line_after version «record».old call.now sheet.old answer) (shown_number result) «record».new sheet.new }
{
    if answer.refusal == Refusal::BadCall.number() {
        return Err(Refusal::BadCall);
    }
    let card = answer.battery.card;
    if sheet.len() < sheet_lines::lines::line_size(version, card, call.len()) {
        return Err(Refusal::NoRoom);
    }
    sheet_lines::lines::put_line(version, sheet, call, answer);
    // Ok with a number, not `Refusal`: an answer's refusal is a byte, any of 256 by its type
    if answer.refusal != 0 {
        return Ok(answer.refusal);
    }
    let b = answer.battery;
    sheet_records::renew_record(version, record, b);
    Ok(0)
}
