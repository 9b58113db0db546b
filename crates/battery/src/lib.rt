// The battery by value, the seven kinds of call, and what a call answers: document 01's types, and refusal 10's test of a battery.
#![tactic(auto)]

pub mod answers;
pub mod call_ranges;
pub mod lent;

ghost use Rattle.std.specs.Prelude.{◌≡◌, ◌≤◌, length};
ghost use Rattle.battery.specs.Battery.{fresh as fresh_of, zones_finite, battery_accepted};
ghost use Rattle.battery.specs.Ledger.{whole, totals_of, totals_finite, ledger_of, renewed_battery};

use card::Card;

#[repr(C)]
#[derive(Clone, Copy)]
pub struct Battery {
    pub card: Card,
    // °C, the first `count` of 64 places; no step uses or changes what lies above it. Document 01's form, '64
    // places and a count', with no heap.
    pub zones: [f64; 64],
    pub count: u8,
    // hours in this timestep: total, pump and direct running time
    pub total: f64,
    pub pump: f64,
    pub direct: f64,
    // kWh: charged total, charged electric
    pub charged: f64,
    pub electric: f64,
}

#[derive(Clone, Copy)]
pub struct Demand {
    // the class of its type: 0 combi, 1 regular, 2 space, 3 direct; a number that isn't listed has 0 (sheet_calls::demand_class).
    // A number, since refusal 10 tests its range with the call's other fields: a narrower type would ask more of callers.
    pub service: u8,
    // the Rust's update_heat_source_state; a trial where it is false
    pub commit: bool,
    pub control: bool,
    // kWh
    pub required: f64,
    // hours
    pub start: f64,
    // °C of the return
    pub feed: Option<f64>,
}

#[derive(Clone, Copy)]
pub struct Hydronic {
    pub inlet: f64,
    pub hours: f64,
    pub flow: f64,
    pub target: f64,
    // kWh
    pub limit: f64,
    pub a: f64,
    pub b: f64,
    pub velocity: f64,
    // metres
    pub diameter: f64,
}

// Document 01's kinds 1 to 7.
#[derive(Clone, Copy)]
pub enum Call {
    DemandEnergy(Demand),
    // power, target
    ChargeElectric(f64, f64),
    ChargeHydronic(Hydronic),
    // whether the card sets a floor for it
    HeatLoss(bool),
    CloseTimestep,
    ReadStateOfCharge,
    // flow maximum, target
    ChargeEnergyDemand(Option<f64>, f64),
}

#[derive(Clone, Copy)]
pub struct Answer {
    // 0 for none; a number, since an answer is read from a sheet too, where its byte is any of 256
    pub refusal: u8,
    // kWh, or the state of charge
    pub energy: f64,
    // 1 where there is an outlet temperature; the sheet's byte, as above
    pub mark: u8,
    pub outlet: f64,
    // seconds
    pub time: f64,
    pub substeps: u32,
    // the battery afterwards
    pub battery: Battery,
}

// A battery's five totals, as in Battery, where they lie one by one: C knows that struct.
#[derive(Clone, Copy, Default)]
pub struct Totals {
    pub total: f64,
    pub pump: f64,
    pub direct: f64,
    pub charged: f64,
    pub electric: f64,
}

// All of a battery but its zones, which stay where they lie.
#[derive(Clone, Copy)]
pub struct Ledger {
    pub card: Card,
    pub count: u8,
    pub totals: Totals,
}

// All of an answer that is no refusal but the zones, the card and the count.
#[derive(Clone, Copy)]
pub struct Reply {
    // kWh, or the state of charge
    pub energy: f64,
    pub outlet: Option<f64>,
    // seconds
    pub time: f64,
    pub substeps: u32,
    pub totals: Totals,
}

impl Battery {
    pub fn totals(&self) -> Totals
        ensures { result ≡ totals_of self.now }
    {
        Totals {
            total: self.total,
            pump: self.pump,
            direct: self.direct,
            charged: self.charged,
            electric: self.electric,
        }
    }

    pub fn set_totals(&mut self, totals: Totals)
        ensures { self.new ≡ renewed_battery (ledger_of self.old) totals self.old.zones }
    {
        self.total = totals.total;
        self.pump = totals.pump;
        self.direct = totals.direct;
        self.charged = totals.charged;
        self.electric = totals.electric;
    }
}

pub fn fresh(card: Card) -> Battery
    requires { card.layers ≤ 64 }
    ensures { result ≡ fresh_of card }
{
    let mut zones = [0.0; 64];
    let n = card.layers as usize;
    let start = card.start;
    zones[..n].fill(start);
    Battery {
        card,
        zones,
        count: card.layers,
        total: 0.0,
        pump: 0.0,
        direct: 0.0,
        charged: 0.0,
        electric: 0.0,
    }
}

// Whether all zones are finite.
#[tactic(auto, unfolding(crate::specs::Battery::zones_finite))]
pub fn zones_finite(zones: &[f64]) -> bool
    ensures { result ≡ zones_finite zones.now (length zones.now) }
{
    let mut ok = true;
    for zone in zones {
        ok = ok & floats::is_finite(*zone);
    }
    ok
}

#[tactic(auto, unfolding(crate::specs::Ledger::totals_finite))]
pub fn totals_finite(totals: Totals) -> bool
    ensures { result ≡ totals_finite totals }
{
    floats::is_finite(totals.total)
        & floats::is_finite(totals.pump)
        & floats::is_finite(totals.direct)
        & floats::is_finite(totals.charged)
        & floats::is_finite(totals.electric)
}

// A function and no `From`: contracts name the definition `ledger_of`. The card field by field: the compiler then copies it in place and calls no copying
// routine.
pub fn ledger_of(battery: Battery) -> Ledger
    ensures { result ≡ ledger_of battery }
{
    let card = Card {
        layers: battery.card.layers,
        units: battery.card.units,
        simultaneous: battery.card.simultaneous,
        budget: battery.card.budget,
        substep: battery.card.substep,
        timestep: battery.card.timestep,
        inlet: battery.card.inlet,
        outlet: battery.card.outlet,
        max: battery.card.max,
        reference: battery.card.reference,
        lower: battery.card.lower,
        upper: battery.card.upper,
        below: battery.card.below,
        during: battery.card.during,
        above: battery.card.above,
        velocity: battery.card.velocity,
        diameter: battery.card.diameter,
        a: battery.card.a,
        b: battery.card.b,
        flow: battery.card.flow,
        losses: battery.card.losses,
        start: battery.card.start,
        power: battery.card.power,
    };
    Ledger {
        card,
        count: battery.count,
        totals: battery.totals(),
    }
}

// Refusal 10's test of a battery: false where it is refused.
#[tactic(auto, unfolding(crate::specs::Battery::battery_accepted), using(crate::proofs::Zones::finite_front, card::proofs::Accepted::accepted_layers))]
pub fn is_accepted(version: u8, ledger: Ledger, zones: &[f64; 64]) -> bool
    ensures { result ≡ battery_accepted version (whole ledger zones.now) }
{
    let c = ledger.card;
    if card::is_accepted(version, c) {
        if ledger.count == c.layers {
            return zones_finite(&zones[..c.layers as usize]) & totals_finite(ledger.totals);
        }
        return false;
    }
    false
}
