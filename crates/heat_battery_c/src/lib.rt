// The C archive, libheat_battery.a: the five entries of heat_battery, exported under their names with the same contracts.
// include/heat_battery.h says what a caller must know. The same five again, since a static library is no library that `promises` can use.
#![tactic(auto)]

ghost use Rattle.std.specs.Prelude.{◌≡◌};
ghost use Rattle.auditor.specs.Rules.{plain};
ghost use Rattle.auditor.specs.Audit.{verdict_word, verdict_fields, audit_of, limited_audit_of};
ghost use Rattle.own_record.specs.Record.{own_advanced};
ghost use Rattle.entries.specs.Entry.{WasAfter, open_of};
ghost use Rattle.heat_battery.specs.Entries.{entry_of};

use auditor::AuditVerdict;
use own_record::{OwnRecord, Shown};

#[unsafe(no_mangle)]
pub extern "C" fn heat_battery_open(
    version: u8,
    card: &[u8],
    record: &mut [u8],
    sheet: &mut [u8],
) -> u8
    ensures { WasAfter (open_of version card.now «record».old sheet.old) result «record».new sheet.new }
{
    heat_battery::heat_battery_open(version, card, record, sheet)
}

#[unsafe(no_mangle)]
pub extern "C" fn heat_battery_call(
    version: u8,
    record: &mut [u8],
    call: &[u8],
    sheet: &mut [u8],
) -> u8
    ensures { WasAfter (entry_of version «record».old call.now sheet.old) result «record».new sheet.new }
{
    heat_battery::heat_battery_call(version, record, call, sheet)
}

#[unsafe(no_mangle)]
pub extern "C" fn heat_battery_audit(sheet: &[u8]) -> u64
    ensures { result ≡ verdict_word (limited_audit_of plain sheet.now) }
{
    heat_battery::heat_battery_audit(sheet)
}

#[unsafe(no_mangle)]
pub extern "C" fn heat_battery_audit_whole(sheet: &[u8]) -> AuditVerdict
    ensures { result ≡ verdict_fields (audit_of plain sheet.now) }
{
    heat_battery::heat_battery_audit_whole(sheet)
}

#[unsafe(no_mangle)]
pub extern "C" fn heat_battery_advance(version: u8, own: &mut OwnRecord, call: &[u8]) -> Shown
    ensures { (result ≡ (own_advanced version own.old call.now).shown) × (own.new ≡ (own_advanced version own.old call.now).own) }
{
    heat_battery::heat_battery_advance(version, own, call)
}
