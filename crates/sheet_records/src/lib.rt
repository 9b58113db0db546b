// A battery's zones and totals as bytes, and the record that a caller keeps: its card's bytes, then these.
// A card that was read goes beside its bytes with a clause that it is theirs: a struct of both would be taken apart at each writer, which is lent the bytes.
#![tactic(auto)]

pub mod cards;
pub mod extension;

ghost use Rattle.std.specs.Prelude.{◌≡◌, ◌+◌, ◌*◌, ◌≤◌, length, take};
ghost use Rattle.std.proofs.lemmas.List.Edits.{sets};
ghost use Rattle.sheet_records.specs.Cards.{card_length, card_at};
ghost use Rattle.sheet_records.specs.Records.{zones_at, zones_bytes, totals_length, totals_bytes, state_length, state_at, state_bytes, record_length, record_of, record_bytes};

use battery::Battery;
use card::Card;

// Bytes of the five totals.
const TOTALS: usize = 40;

// The version goes beside a card here, and beside a battery, a ledger or a line's bytes elsewhere: it is the sheet's. `CardBytes` and `OwnExtension` hold it.
#[tactic(auto, unfolding(crate::specs::Records::state_length))]
pub fn state_length(version: u8, card: Card) -> usize
    ensures { result ≡ state_length version card }
{
    8 * (card.layers as usize) + TOTALS
}

// The length of the record whose card stands at the front of the bytes, read already.
#[tactic(auto, unfolding(crate::specs::Records::state_length, crate::specs::Records::record_length))]
pub fn record_length(version: u8, card: Card, bytes: &[u8]) -> usize
    requires { card ≡ card_at version bytes.now }
    ensures { result ≡ record_length version bytes.now }
{
    cards::card_length(version, bytes) + state_length(version, card)
}

#[tactic(auto, unfolding(crate::specs::Records::zones_at))]
fn read_zones(bytes: &[u8], at: usize, n: usize) -> [f64; 64]
    requires { (n ≤ 64) × (at + 8 * n ≤ length bytes.now) }
    ensures { result ≡ zones_at bytes.now at n }
{
    let mut zones = [0.0; 64];
    // By its place: of a slice that `iter_mut` went over a proof knows the length and no element.
    for k in 0..n {
        zones[k] = codec::nth_f64(bytes, at, k);
    }
    zones
}

// A card's battery with the zones and totals from a place on.
#[tactic(auto, unfolding(crate::specs::Records::state_length, crate::specs::Records::state_at))]
pub fn read_state(version: u8, card: Card, bytes: &[u8], at: usize) -> Battery
    requires { (card.layers ≤ 64) × (at + state_length version card ≤ length bytes.now) }
    ensures { result ≡ state_at version card bytes.now at }
{
    let n = card.layers as usize;
    let zones = read_zones(bytes, at, n);
    let totals = at + 8 * n;
    Battery {
        card,
        zones,
        count: card.layers,
        total: codec::nth_f64(bytes, totals, 0),
        pump: codec::nth_f64(bytes, totals, 1),
        direct: codec::nth_f64(bytes, totals, 2),
        charged: codec::nth_f64(bytes, totals, 3),
        electric: codec::nth_f64(bytes, totals, 4),
    }
}

// The battery of a record whose card was read and accepted.
#[tactic(auto, unfolding(crate::specs::Records::record_length, crate::specs::Records::record_of))]
pub fn read_record(version: u8, card: Card, bytes: &[u8]) -> Battery
    requires { (card ≡ card_at version bytes.now) × (card.layers ≤ 64) × (record_length version bytes.now ≤ length bytes.now) }
    ensures { result ≡ record_of version bytes.now }
{
    let at = cards::card_length(version, bytes);
    read_state(version, card, bytes, at)
}

fn put_zones(bytes: &mut [u8], at: usize, zones: &[f64]) -> usize
    requires { at + 8 * length zones.now ≤ length bytes.old }
    ensures { (result ≡ at + 8 * length zones.now) × (bytes.new ≡ sets bytes.old at (zones_bytes zones.now (length zones.now))) }
{
    let mut p = at;
    for zone in zones {
        p = codec::put_f64(bytes, p, *zone);
    }
    p
}

fn put_totals(bytes: &mut [u8], at: usize, battery: Battery) -> usize
    requires { at + totals_length ≤ length bytes.old }
    ensures { (result ≡ at + totals_length) × (bytes.new ≡ sets bytes.old at (totals_bytes battery)) }
{
    let p1 = codec::put_f64(bytes, at, battery.total);
    let p2 = codec::put_f64(bytes, p1, battery.pump);
    let p3 = codec::put_f64(bytes, p2, battery.direct);
    let p4 = codec::put_f64(bytes, p3, battery.charged);
    codec::put_f64(bytes, p4, battery.electric)
}

// Writes zones and totals from a place on, and returns the place after them.
#[tactic(auto, unfolding(crate::specs::Records::state_length))]
pub fn put_state(version: u8, bytes: &mut [u8], at: usize, battery: Battery) -> usize
    requires { (battery.card.layers ≤ 64) × (at + state_length version battery.card ≤ length bytes.old) }
    ensures { (result ≡ at + state_length version battery.card) × (bytes.new ≡ sets bytes.old at (state_bytes version battery)) }
{
    let n = battery.card.layers as usize;
    let p = put_zones(bytes, at, &battery.zones[..n]);
    put_totals(bytes, p, battery)
}

// Writes a whole record, with the caller's own card bytes.
pub fn put_record(version: u8, bytes: &mut [u8], card: &[u8], battery: Battery)
    requires { (battery.card.layers ≤ 64) × (length bytes.old ≡ length card.now + state_length version battery.card) }
    ensures { bytes.new ≡ record_bytes version card.now battery }
{
    let p = codec::put_bytes(bytes, 0, card);
    put_state(version, bytes, p, battery);
}

// Writes zones and totals into a record; its card's bytes stay.
#[tactic(auto, unfolding(crate::specs::Records::record_bytes), using(codec::proofs::Puts::put_tail, crate::proofs::Lengths::length_state_bytes))]
pub fn renew_record(version: u8, bytes: &mut [u8], battery: Battery)
    requires { (battery.card.layers ≤ 64) × (length bytes.old ≡ card_length version bytes.old + state_length version battery.card) }
    ensures { bytes.new ≡ record_bytes version (take (card_length version bytes.old) bytes.old) battery }
{
    let at = cards::card_length(version, bytes);
    put_state(version, bytes, at, battery);
}
