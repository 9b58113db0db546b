// Document 01, module 6: charges, losses, and the energy to a level.
#![tactic(auto)]

ghost use Rattle.std.specs.Prelude.{◌≡◌, false, ◌≤◌, None};
ghost use Rattle.std.specs.Float.Ieee.{lt};
ghost use Rattle.floats.specs.Constants.{zero};
ghost use Rattle.zone.specs.LentSalts.{lent_salts};
ghost use Rattle.battery.specs.Ledger.{whole};
ghost use Rattle.substep.specs.Substep.{charger_heat};
ghost use Rattle.runs.specs.Runs.{end_refusal};
ghost use Rattle.runs.specs.Zoned.{AsDefined};
ghost use Rattle.runs.specs.Charge.{electric_input, electric_ended, charge_electric, hydronic_task, hydronic_start, charge_hydronic, charge_battery, loss_floor, loss_input, loss_ended, battery_heat_loss, energy_deficit, charge_energy_demand};

use battery::Ledger;
use battery::lent::Lent;
use card::Card;
use runs::{End, Exchanger, HydronicState, HydronicTask, Source, Stopped};
use substep::{Outcome, SubstepInput};
use zone::lent::LentSalts;
use zone::{Kilojoules, KilowattHours};
use zone_water::Mode;

// The call's power over the time left.
#[tactic(auto, unfolding(runs::specs::Charge::electric_input))]
fn electric_input(ledger: Ledger, power: f64, target: f64) -> SubstepInput
    ensures { result ≡ electric_input ledger power target }
{
    let card = ledger.card;
    let left = floats::max_zero(runs::time_available(ledger, 0.0));
    SubstepInput {
        mode: Mode::OnlyCharging,
        inlet: 0.0,
        seconds: left * floats::SECONDS_PER_HOUR,
        reynold: 0.0,
        flow: card.flow,
        power,
        target,
        a: card.a,
        b: card.b,
    }
}

#[tactic(auto, unfolding(runs::specs::Charge::electric_ended))]
fn electric_ended(ledger: Ledger, outcome: Outcome) -> Stopped
    ensures { result ≡ electric_ended ledger outcome }
{
    Stopped {
        energy: outcome.charged,
        electric: KilowattHours(ledger.totals.electric + outcome.charged.0),
        outlet: 0.0,
        time: 0.0,
        end: End::from(outcome.fault),
        substeps: 1,
    }
}

#[tactic(auto, unfolding(runs::specs::Charge::electric_input, runs::specs::Charge::charge_electric), using(zone::proofs::Salts::salts_at))]
pub fn charge_battery_electric<const APART: usize>(
    lent: Lent<'_, APART>,
    power: f64,
    target: f64,
    zones: &mut [f64; 64],
) -> Stopped
    ensures { AsDefined (end_refusal result.end) result zones.new (charge_electric (whole lent.entry.ledger zones.old) power target) }
{
    let ledger = lent.ledger;
    let card = ledger.card;
    let pcm = card::pcm::derived(card);
    let input = electric_input(ledger, power, target);
    let u = substep_loops::charging_alone::charge_in_place(card, pcm, lent.salts, input, zones);
    electric_ended(ledger, u)
}

#[tactic(auto, unfolding(runs::specs::Charge::hydronic_task))]
fn hydronic_task(ledger: Ledger, wet: Exchanger, target: f64) -> HydronicTask
    ensures { result ≡ hydronic_task ledger.card wet target }
{
    HydronicTask {
        card: ledger.card,
        pcm: card::pcm::derived(ledger.card),
        wet,
        target,
        limit: KilowattHours(wet.limit).kilojoules(),
    }
}

#[tactic(auto, unfolding(runs::specs::Charge::hydronic_start))]
fn hydronic_start(ledger: Ledger, wet: Exchanger) -> HydronicState
    ensures { result ≡ hydronic_start ledger.card wet }
{
    let card = ledger.card;
    HydronicState {
        absorbed: Kilojoules(0.0),
        reynold: runs::reynold_between(card.inlet, card.outlet, wet.velocity, wet.diameter),
        time: 0.0,
    }
}

pub fn charge_battery_hydronic<const APART: usize>(
    lent: Lent<'_, APART>,
    wet: Exchanger,
    target: f64,
    zones: &mut [f64; 64],
) -> Stopped
    ensures { AsDefined (end_refusal result.end) result zones.new (charge_hydronic (whole lent.entry.ledger zones.old) wet target) }
{
    let ledger = lent.ledger;
    let task = hydronic_task(ledger, wet, target);
    let steps = run_hydronic::whole_substeps(task);
    let start = hydronic_start(ledger, wet);
    let e = run_hydronic::hydronic_run(task, lent.salts, steps, start, zones);
    run_hydronic::hydronic_ended(KilowattHours(ledger.totals.electric), e)
}

// The charge step: by the source.
#[tactic(auto, unfolding(runs::specs::Charge::charge_battery))]
pub fn charge_battery<const APART: usize>(
    lent: Lent<'_, APART>,
    source: Source,
    target: f64,
    zones: &mut [f64; 64],
) -> Stopped
    ensures { AsDefined (end_refusal result.end) result zones.new (charge_battery (whole lent.entry.ledger zones.old) source target) }
{
    match source {
        Source::Electric(power) => { charge_battery_electric(lent, power, target, zones) }
        Source::Wet(wet) => charge_battery_hydronic(lent, wet, target, zones),
    }
}

// The lowest temperature of standing losses, where the card sets a floor.
#[tactic(auto, unfolding(runs::specs::Charge::loss_floor))]
fn loss_floor(floor: bool) -> Option<f64>
    ensures { result ≡ loss_floor floor }
{
    if floor {
        return Some(floats::ROOM_TEMPERATURE_C);
    }
    None
}

// The rated losses over the whole timestep.
#[tactic(auto, unfolding(runs::specs::Charge::loss_input))]
fn loss_input(ledger: Ledger, lowest: Option<f64>) -> SubstepInput
    ensures { result ≡ loss_input ledger.card lowest }
{
    let card = ledger.card;
    SubstepInput {
        mode: Mode::Losses(lowest),
        inlet: floats::DEFAULT_AMBIENT_TEMPERATURE,
        seconds: card.timestep * floats::SECONDS_PER_HOUR,
        reynold: 0.0,
        flow: 0.0,
        power: -card.losses,
        target: 0.0,
        a: card.a,
        b: card.b,
    }
}

// As electric_ended but for both energies: one function of the two would be no shorter, and would need a definition of its own.
#[tactic(auto, unfolding(runs::specs::Charge::loss_ended))]
fn loss_ended(ledger: Ledger, outcome: Outcome) -> Stopped
    ensures { result ≡ loss_ended ledger outcome }
{
    Stopped {
        energy: outcome.delivered.kilowatt_hours(),
        electric: KilowattHours(ledger.totals.electric),
        outlet: 0.0,
        time: 0.0,
        end: End::from(outcome.fault),
        substeps: 1,
    }
}

// No loss has heat of a charger, whatever its floor.
#[tactic(auto, unfolding(substep::specs::Substep::charger_heat, runs::specs::Charge::loss_input, runs::specs::Charge::battery_heat_loss), using(zone::proofs::Salts::salts_at))]
pub fn battery_heat_loss<const APART: usize>(
    lent: Lent<'_, APART>,
    floor: bool,
    zones: &mut [f64; 64],
) -> Stopped
    requires { lt (charger_heat (loss_input lent.ledger.card None)).0 zero ≡ false }
    ensures { AsDefined (end_refusal result.end) result zones.new (battery_heat_loss (whole lent.entry.ledger zones.old) floor) }
{
    let ledger = lent.ledger;
    let card = ledger.card;
    let pcm = card::pcm::derived(card);
    let lowest = loss_floor(floor);
    let input = loss_input(ledger, lowest);
    let u = substep_loops::losses::lose_in_place(card, pcm, lent.salts, lowest, input, zones);
    loss_ended(ledger, u)
}

// The energy to the target, or to the flow maximum where that is less.
#[tactic(auto, unfolding(runs::specs::Charge::energy_deficit))]
fn energy_deficit<const APART: usize>(
    card: Card,
    salts: LentSalts<'_, APART>,
    most: Option<f64>,
    current: Kilojoules,
    wanted: Kilojoules,
) -> Kilojoules
    requires { card.layers ≤ salts.layers }
    ensures { result ≡ energy_deficit (lent_salts salts.entry) card most current wanted }
{
    match most {
        None => Kilojoules(wanted.0 - current.0),
        Some(t) => {
            let hottest = card::pcm::energy_at(card, salts, t);
            let flow = floats::max_zero(hottest.0 - current.0);
            Kilojoules(floats::min(wanted.0 - current.0, flow))
        }
    }
}

// `soc` is the battery's state of charge.
#[tactic(auto, unfolding(runs::specs::Charge::charge_energy_demand))]
pub fn calculate_charge_energy_demand<const APART: usize>(
    lent: Lent<'_, APART>,
    most: Option<f64>,
    target: f64,
    soc: f64,
) -> KilowattHours
    ensures { result ≡ charge_energy_demand lent.entry.ledger.card most target soc }
{
    let card = lent.ledger.card;
    if soc > target {
        return KilowattHours(0.0);
    }
    if floats::nearly_equal(soc, target, floats::TOLERANCE, floats::MAX_RELATIVE) {
        return KilowattHours(0.0);
    }
    let stored = card::pcm::energy_at(card, lent.salts, card.max);
    let current = Kilojoules(stored.0 * soc);
    let wanted = Kilojoules(stored.0 * target);
    energy_deficit(card, lent.salts, most, current, wanted).kilowatt_hours()
}
