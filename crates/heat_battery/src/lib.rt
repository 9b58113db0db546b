// The C entries: opening a sheet and a call for laboratory A, the audit for laboratory B with the limit of length and without, and a call on the
// caller's own record.
// include/heat_battery.h says what a caller must know; crates/heat_battery_c exports the five for C.
#![tactic(auto)]

ghost use Rattle.std.specs.Prelude.{◌≡◌, true};
ghost use Rattle.battery.specs.Battery.{battery_accepted};
ghost use Rattle.sheet_records.specs.Cards.{card_at, extension_at};
ghost use Rattle.sheet_records.specs.Records.{record_of};
ghost use Rattle.sheet_calls.specs.Calls.{call_of};
ghost use Rattle.auditor.specs.Rules.{plain};
ghost use Rattle.auditor.specs.Audit.{verdict_word, verdict_fields, audit_of, limited_audit_of};
ghost use Rattle.own_record.specs.Record.{own_advanced};
ghost use Rattle.entries.specs.Entry.{WasAfter, shown_number, open_of, record_laid};
ghost use Rattle.heat_battery.specs.Entries.{entry_read, entry_known, entry_of};

use auditor::AuditVerdict;
use battery::Battery;
use card::Card;
use own_record::{OwnExtension, OwnRecord, Shown};
use refusals::Refusal;
use sheet_records::cards::CardBytes;

// Opens a sheet: its version and card line, and a fresh battery; 40 before all where the version isn't known. A refusal leaves as its number here, and in
// `heat_battery_call`: C reads it.
#[unsafe(no_mangle)]
#[tactic(auto, using(entries::proofs::Opening::open_known_lem, entries::proofs::Opening::open_unknown))]
pub extern "C" fn heat_battery_open(
    version: u8,
    card: &[u8],
    record: &mut [u8],
    sheet: &mut [u8],
) -> u8
    ensures { WasAfter (open_of version card.now «record».old sheet.old) result «record».new sheet.new }
{
    if !card::version::known_version(version) {
        return Refusal::NoVersion.number();
    }
    refusals::refused_number(entries::open(version, card, record, sheet))
}

// A call on a record's accepted battery: read, advanced, entered. Record, call and sheet are the three memories that C lends.
fn advance(
    version: u8,
    battery: Battery,
    record: &mut [u8],
    call: &[u8],
    sheet: &mut [u8],
) -> Result<u8, Refusal>
    requires { (record_laid version «record».old ≡ true) × (battery ≡ record_of version «record».old) × (battery_accepted version battery ≡ true) }
    ensures { WasAfter (entry_read version «record».old call.now sheet.old (call_of version (extension_at version «record».old) call.now)) (shown_number result) «record».new sheet.new }
{
    let Some(kind) = sheet_calls::kind_of(version, call) else {
        return Err(Refusal::BadCall);
    };
    let kind = u8::from(kind);
    let listed = CardBytes {
        version,
        bytes: record,
    };
    let class = sheet_calls::demand_class(version, &listed, kind, call);
    let floor = card::extension::has_floor(&listed);
    let Some(read) = sheet_calls::call_by(version, kind, class, floor, call) else {
        return Err(Refusal::BadCall);
    };
    let a = engine::steps::advance(version, battery, read);
    entries::enter(version, record, call, sheet, a)
}

// A call on a record whose card was read and accepted: its battery read and judged.
fn with_card(
    version: u8,
    card: Card,
    record: &mut [u8],
    call: &[u8],
    sheet: &mut [u8],
) -> Result<u8, Refusal>
    requires { (record_laid version «record».old ≡ true) × (card ≡ card_at version «record».old) }
    ensures { WasAfter (entry_read version «record».old call.now sheet.old (call_of version (extension_at version «record».old) call.now)) (shown_number result) «record».new sheet.new }
{
    let b = sheet_records::read_record(version, card, record);
    if !entries::record_accepted(version, b) {
        return Err(Refusal::BadCall);
    }
    advance(version, b, record, call, sheet)
}

// A call on a record of a known version: its card read and judged.
#[tactic(auto, unfolding(crate::specs::Entries::entry_known), using(entries::proofs::Checked::good_card, entries::proofs::Checked::bad_card_lem))]
fn with_version(
    version: u8,
    record: &mut [u8],
    call: &[u8],
    sheet: &mut [u8],
) -> Result<u8, Refusal>
    ensures { WasAfter (entry_known version «record».old call.now sheet.old) (shown_number result) «record».new sheet.new }
{
    let Some(card) = entries::record_card(version, record) else {
        return Err(Refusal::BadCall);
    };
    with_card(version, card, record, call, sheet)
}

// One call on a battery record: its line at the front of the lent part of the sheet, and the record renewed; 40 before all.
#[unsafe(no_mangle)]
#[tactic(auto, using(crate::proofs::Calling::entry_known_lem, crate::proofs::Calling::entry_unknown))]
pub extern "C" fn heat_battery_call(
    version: u8,
    record: &mut [u8],
    call: &[u8],
    sheet: &mut [u8],
) -> u8
    ensures { WasAfter (entry_of version «record».old call.now sheet.old) result «record».new sheet.new }
{
    if !card::version::known_version(version) {
        return Refusal::NoVersion.number();
    }
    match with_version(version, record, call, sheet) {
        Ok(shown) => shown,
        Err(refusal) => refusal.number(),
    }
}

// Audits a sheet: line × 256 + refusal, or lines × 256 where it is accepted; 44 above 65,536 bytes.
#[unsafe(no_mangle)]
pub extern "C" fn heat_battery_audit(sheet: &[u8]) -> u64
    ensures { result ≡ verdict_word (limited_audit_of plain sheet.now) }
{
    auditor::limited_audit_word(sheet)
}

// Audits a sheet of any length: the refusal and its line, or 0 and the number of call lines.
#[unsafe(no_mangle)]
pub extern "C" fn heat_battery_audit_whole(sheet: &[u8]) -> AuditVerdict
    ensures { result ≡ verdict_fields (audit_of plain sheet.now) }
{
    auditor::audit_fields(sheet)
}

// Advances the caller's own battery by a call: 40, 10, or the steps. Answered, its first `count` zones and five totals are stored; refused, nothing is.
#[unsafe(no_mangle)]
#[tactic(auto, using(crate::proofs::RecordAfter::shown_told, crate::proofs::RecordAfter::after_told))]
pub extern "C" fn heat_battery_advance(version: u8, own: &mut OwnRecord, call: &[u8]) -> Shown
    ensures { (result ≡ (own_advanced version own.old call.now).shown) × (own.new ≡ (own_advanced version own.old call.now).own) }
{
    let l = battery::ledger_of(own.battery);
    let extension = OwnExtension {
        version,
        count: own.services,
        numbers: &own.numbers,
        classes: &own.classes,
        floor: own.floor,
    };
    match own_record::advance_apart(l, extension, call, &mut own.battery.zones) {
        Ok(reply) => {
            own.battery.set_totals(reply.totals);
            Shown::from(reply)
        }
        Err(refusal) => Shown::from(refusal),
    }
}
