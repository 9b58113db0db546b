// A call's bytes: its kind and its fields. Ranges are tested by battery::call_ranges::call_in_range.
// That all of a call lies in its bytes is a clause of each reader and no type: the auditor reads from a line, whose kind is known first.
#![tactic(auto)]

pub mod kind;

ghost use Rattle.std.specs.Prelude.{◌≡◌, ◌+◌, ◌≤◌, length};
ghost use Rattle.sheet_calls.specs.Calls.{commit_place, call_length, mark_ok, given_at, demand_at, demand_call, hydronic_at, charge_demand_call, kind_of, demand_class, call_by};
ghost use Rattle.sheet_calls.specs.Kinds.{kind_number_or_0};

use battery::{Call, Demand, Hydronic};
use card::extension::Extended;
use kind::Kind;

// Place of the first field.
const FIELDS: usize = 1;

// How far after a demand's first flag its second one, its numbers and its return mark stand.
const CONTROL: usize = 1;

const NUMBERS: usize = 2;

const RETURN: usize = 18;

// The place of a demand's first flag.
#[tactic(auto, unfolding(crate::specs::Calls::commit_place))]
fn commit_place(version: u8) -> usize
    ensures { result ≡ commit_place version }
{
    if card::version::lists_services(version) {
        return 3;
    }
    2
}

// The bytes of a call of a kind, 0 where there is no such kind.
#[tactic(auto, unfolding(crate::specs::Calls::call_length), using(crate::proofs::Places::commit_place_lem))]
pub fn call_length(version: u8, kind: u8) -> usize
    ensures { result ≡ call_length version kind }
{
    match Kind::try_from(kind) {
        Ok(Kind::DemandEnergy) => commit_place(version) + RETURN + 9,
        Ok(Kind::ChargeElectric) => 17,
        Ok(Kind::ChargeHydronic) => 73,
        Ok(Kind::HeatLoss) => 1,
        Ok(Kind::CloseTimestep) => 1,
        Ok(Kind::ReadStateOfCharge) => 1,
        Ok(Kind::ChargeEnergyDemand) => 18,
        Err(_) => 0,
    }
}

// A mark is 0 over zero bytes, or 1.
#[tactic(auto, unfolding(crate::specs::Calls::mark_ok))]
pub fn mark_ok(bytes: &[u8], at: usize) -> bool
    requires { at + 9 ≤ length bytes.now }
    ensures { result ≡ mark_ok bytes.now at }
{
    if bytes[at] == 0 {
        codec::read_be(bytes, at + 1, 8) == 0
    } else {
        bytes[at] == 1
    }
}

// A mark and a value.
#[tactic(auto, unfolding(crate::specs::Calls::given_at))]
fn read_given(bytes: &[u8], at: usize) -> Option<f64>
    requires { at + 9 ≤ length bytes.now }
    ensures { result ≡ given_at bytes.now at }
{
    if bytes[at] == 0 {
        None
    } else {
        Some(codec::read_f64(bytes, at + 1))
    }
}

#[tactic(auto, unfolding(crate::specs::Calls::demand_at), using(crate::proofs::Places::demand_fits))]
fn read_demand(version: u8, class: u8, bytes: &[u8]) -> Demand
    requires { call_length version 1 ≤ length bytes.now }
    ensures { result ≡ demand_at version class bytes.now }
{
    let commit = commit_place(version);
    let feed = read_given(bytes, commit + RETURN);
    Demand {
        service: class,
        commit: bytes[commit] == 1,
        control: bytes[commit + CONTROL] == 1,
        required: codec::nth_f64(bytes, commit + NUMBERS, 0),
        start: codec::nth_f64(bytes, commit + NUMBERS, 1),
        feed,
    }
}

#[tactic(auto, unfolding(crate::specs::Calls::demand_call), using(crate::proofs::Places::demand_fits))]
fn demand_call(version: u8, class: u8, bytes: &[u8]) -> Option<Call>
    requires { call_length version 1 ≤ length bytes.now }
    ensures { result ≡ demand_call version class bytes.now }
{
    let commit = commit_place(version);
    if (bytes[commit] <= 1) & (bytes[commit + CONTROL] <= 1) & mark_ok(bytes, commit + RETURN) {
        return Some(Call::DemandEnergy(read_demand(version, class, bytes)));
    }
    None
}

#[tactic(auto, unfolding(crate::specs::Calls::hydronic_at), using(crate::proofs::Places::hydronic_length))]
fn read_hydronic(version: u8, bytes: &[u8]) -> Hydronic
    requires { call_length version 3 ≤ length bytes.now }
    ensures { result ≡ hydronic_at version bytes.now }
{
    Hydronic {
        inlet: codec::nth_f64(bytes, FIELDS, 0),
        hours: codec::nth_f64(bytes, FIELDS, 1),
        flow: codec::nth_f64(bytes, FIELDS, 2),
        target: codec::nth_f64(bytes, FIELDS, 3),
        limit: codec::nth_f64(bytes, FIELDS, 4),
        a: codec::nth_f64(bytes, FIELDS, 5),
        b: codec::nth_f64(bytes, FIELDS, 6),
        velocity: codec::nth_f64(bytes, FIELDS, 7),
        diameter: codec::nth_f64(bytes, FIELDS, 8),
    }
}

#[tactic(auto, unfolding(crate::specs::Calls::charge_demand_call), using(crate::proofs::Places::charge_demand_length))]
fn charge_demand_call(version: u8, bytes: &[u8]) -> Option<Call>
    requires { call_length version 7 ≤ length bytes.now }
    ensures { result ≡ charge_demand_call version bytes.now }
{
    if mark_ok(bytes, FIELDS) {
        let most = read_given(bytes, FIELDS);
        let target = codec::read_f64(bytes, 10);
        return Some(Call::ChargeEnergyDemand(most, target));
    }
    None
}

// The kind of a call's bytes; none where they are not as many as its calls have. `call_by` reads them then, none where refusal 10 applies to
// them: two functions, so that a call's fields are written once and not copied.
#[tactic(auto, unfolding(crate::specs::Calls::kind_of), using(crate::proofs::ByKind::kind_unknown))]
pub fn kind_of(version: u8, bytes: &[u8]) -> Option<Kind>
    ensures { kind_number_or_0 result ≡ kind_of version bytes.now }
{
    let Ok(kind) = Kind::try_from(codec::byte_or_zero(bytes, 0)) else {
        return None;
    };
    if bytes.len() == call_length(version, u8::from(kind)) {
        return Some(kind);
    }
    None
}

// The class of a demand's type by the services that a card lists; 0 for another kind.
#[tactic(auto, unfolding(crate::specs::Calls::demand_class))]
pub fn demand_class<E: Extended>(version: u8, card: &E, kind: u8, bytes: &[u8]) -> u8
    requires { (length (E.extension card.now).services ≤ E.room card.now) × (call_length version kind ≤ length bytes.now) }
    ensures { result ≡ demand_class version (E.extension card.now).services kind bytes.now }
{
    let Ok(kind) = Kind::try_from(kind) else {
        return 0;
    };
    match kind {
        Kind::DemandEnergy => {
            if card::version::lists_services(version) {
                let number = codec::read_u16(bytes, FIELDS);
                return card::services::class_of(card, number);
            }
            bytes[FIELDS]
        }
        _ => 0,
    }
}

// The call of a kind, with a demand's class and a standing loss's floor, in no fewer bytes than it has; none where they are bad, which A's entry
// refuses with 10, the auditor with 42.
#[tactic(auto, unfolding(crate::specs::Calls::call_by, crate::specs::Calls::bare_call))]
pub fn call_by(version: u8, kind: u8, class: u8, floor: bool, bytes: &[u8]) -> Option<Call>
    requires { call_length version kind ≤ length bytes.now }
    ensures { result ≡ call_by version kind class floor bytes.now }
{
    let Ok(known) = Kind::try_from(kind) else {
        return None;
    };
    match known {
        Kind::DemandEnergy => demand_call(version, class, bytes),
        Kind::ChargeElectric => {
            let power = codec::nth_f64(bytes, FIELDS, 0);
            let target = codec::nth_f64(bytes, FIELDS, 1);
            Some(Call::ChargeElectric(power, target))
        }
        Kind::ChargeHydronic => Some(Call::ChargeHydronic(read_hydronic(version, bytes))),
        Kind::HeatLoss => Some(Call::HeatLoss(floor)),
        Kind::CloseTimestep => Some(Call::CloseTimestep),
        Kind::ReadStateOfCharge => Some(Call::ReadStateOfCharge),
        Kind::ChargeEnergyDemand => charge_demand_call(version, bytes),
    }
}
