// Document 01's steps: what each kind of call answers, and the battery that it leaves. The zones stay where they lie; a refused call may leave
// any there, and its answer shows the battery as it was. That the zones are finite is therefore a clause and no ghost field: it holds before a call only.
ghost use Rattle.std.specs.Prelude.{◌≡◌, true, false, ◌≤◌, None};
ghost use Rattle.std.specs.Float.Ieee.{lt};
ghost use Rattle.floats.specs.Constants.{zero};
ghost use Rattle.battery.specs.Battery.{zones_finite, battery_accepted};
ghost use Rattle.battery.specs.Answer.{settled};
ghost use Rattle.battery.specs.Ledger.{whole};
ghost use Rattle.substep.specs.Substep.{charger_heat};
ghost use Rattle.runs.specs.Charge.{loss_input};
ghost use Rattle.engine.specs.Operations.{operation_step};
ghost use Rattle.engine.specs.Steps.{charge as charge_of, heat_loss, closed, level as level_of, read_level, demand_to_level, advance_of};

use crate::{Operation, demand};
use battery::lent::Lent;
use battery::{Answer, Battery, Call, Ledger, Reply};
use refusals::Refusal;
use runs::Source;

fn charge<const APART: usize>(
    version: u8,
    lent: Lent<'_, APART>,
    source: Source,
    target: f64,
    zones: &mut [f64; 64],
) -> Result<Reply, Refusal>
    requires { zones_finite zones.old lent.ledger.card.layers ≡ true }
    ensures { settled lent.entry.ledger zones.old result zones.new ≡ charge_of version (whole lent.entry.ledger zones.old) source target }
{
    let s = run_charges::charge_battery(lent, source, target, zones);
    let time = engine_replies::charged_time(version, s);
    let totals = engine_replies::totals::charged_totals(lent.ledger, s);
    let a = engine_replies::run_reply(time, s, totals);
    engine_replies::unless_refused(s.end, a)
}

fn heat_loss<const APART: usize>(
    lent: Lent<'_, APART>,
    floor: bool,
    zones: &mut [f64; 64],
) -> Result<Reply, Refusal>
    requires { lt (charger_heat (loss_input lent.ledger.card None)).0 zero ≡ false }
    ensures { settled lent.entry.ledger zones.old result zones.new ≡ heat_loss (whole lent.entry.ledger zones.old) floor }
{
    let s = run_charges::battery_heat_loss(lent, floor, zones);
    let a = engine_replies::run_reply(0.0, s, lent.ledger.totals);
    engine_replies::unless_refused(s.end, a)
}

fn level<const APART: usize>(lent: Lent<'_, APART>, zones: &[f64; 64]) -> Option<f64>
    ensures { result ≡ level_of (whole lent.entry.ledger zones.now) }
{
    let card = lent.ledger.card;
    let stored = card::pcm::energy_at(card, lent.salts, card.max);
    let n = card.layers as usize;
    zone::layer::calc_state_of_charge(lent.salts, card.reference, stored, &zones[..n])
}

#[tactic(auto, unfolding(crate::specs::Steps::read_level, battery::specs::Answer::settled), using(engine_replies::proofs::Settled::plain_with))]
fn read_level(ledger: Ledger, level: Option<f64>, zones: &[f64; 64]) -> Result<Reply, Refusal>
    requires { ledger.card.layers ≤ 64 }
    ensures { settled ledger zones.now result zones.now ≡ read_level (whole ledger zones.now) level }
{
    match level {
        None => Err(Refusal::OverFull),
        Some(soc) => {
            let a = battery::answers::plain_reply(soc, ledger.totals);
            engine_replies::checked(ledger, a, zones)
        }
    }
}

#[tactic(auto, unfolding(crate::specs::Steps::demand_to_level, battery::specs::Answer::settled), using(engine_replies::proofs::Settled::plain_with))]
fn demand_to_level<const APART: usize>(
    lent: Lent<'_, APART>,
    most: Option<f64>,
    target: f64,
    level: Option<f64>,
    zones: &[f64; 64],
) -> Result<Reply, Refusal>
    ensures { settled lent.entry.ledger zones.now result zones.now ≡ demand_to_level (whole lent.entry.ledger zones.now) most target level }
{
    match level {
        None => Err(Refusal::OverFull),
        Some(soc) => {
            let energy = run_charges::calculate_charge_energy_demand(lent, most, target, soc);
            let a = battery::answers::plain_reply(energy.0, lent.ledger.totals);
            engine_replies::checked(lent.ledger, a, zones)
        }
    }
}

fn close_timestep(ledger: Ledger, zones: &[f64; 64]) -> Result<Reply, Refusal>
    requires { ledger.card.layers ≤ 64 }
    ensures { settled ledger zones.now result zones.now ≡ closed (whole ledger zones.now) }
{
    let totals = engine_replies::totals::closed_totals(ledger);
    let a = battery::answers::plain_reply(0.0, totals);
    engine_replies::checked(ledger, a, zones)
}

fn state_of_charge<const APART: usize>(
    lent: Lent<'_, APART>,
    zones: &[f64; 64],
) -> Result<Reply, Refusal>
    ensures { settled lent.entry.ledger zones.now result zones.now ≡ read_level (whole lent.entry.ledger zones.now) (level_of (whole lent.entry.ledger zones.now)) }
{
    let soc = level(lent, zones);
    read_level(lent.ledger, soc, zones)
}

fn charge_energy_demand<const APART: usize>(
    lent: Lent<'_, APART>,
    most: Option<f64>,
    target: f64,
    zones: &[f64; 64],
) -> Result<Reply, Refusal>
    ensures { settled lent.entry.ledger zones.now result zones.now ≡ demand_to_level (whole lent.entry.ledger zones.now) most target (level_of (whole lent.entry.ledger zones.now)) }
{
    let soc = level(lent, zones);
    demand_to_level(lent, most, target, soc, zones)
}

// A match and no table of closures, which could leave a kind out. The electric and the wet charge are one call of `charge`, so that one copy of it is
// compiled, in place.
#[tactic(auto, unfolding(crate::specs::Operations::operation_step))]
fn operation_step<const APART: usize>(
    version: u8,
    lent: Lent<'_, APART>,
    what: Operation,
    zones: &mut [f64; 64],
) -> Result<Reply, Refusal>
    requires { (zones_finite zones.old lent.ledger.card.layers ≡ true) × (lt (charger_heat (loss_input lent.ledger.card None)).0 zero ≡ false) }
    ensures { settled lent.entry.ledger zones.old result zones.new ≡ operation_step version (whole lent.entry.ledger zones.old) what }
{
    match what {
        Operation::DemandEnergy(d) => demand::demand_energy(lent, d, zones),
        Operation::Charge(source, target) => { charge(version, lent, source, target, zones) }
        Operation::HeatLoss(floor) => heat_loss(lent, floor, zones),
        Operation::CloseTimestep => close_timestep(lent.ledger, zones),
        Operation::ReadStateOfCharge => state_of_charge(lent, zones),
        Operation::ChargeEnergyDemand(most, target) => {
            charge_energy_demand(lent, most, target, zones)
        }
    }
}

// A call on an accepted battery, its zones apart and its salts lent: 10 where a field of the call is out of its range, or the steps.
#[tactic(auto, using(crate::proofs::Accepted::accepted_finite, crate::proofs::Accepted::accepted_losses, crate::proofs::AdvanceKeeps::advance_is_step, crate::proofs::AdvanceKeeps::out_of_range_ten, engine_replies::proofs::Settled::settled_refusal, crate::proofs::ByKind::stepped))]
pub fn advance_accepted<const APART: usize>(
    version: u8,
    lent: Lent<'_, APART>,
    call: Call,
    zones: &mut [f64; 64],
) -> Result<Reply, Refusal>
    requires { battery_accepted version (whole lent.ledger zones.old) ≡ true }
    ensures { settled lent.entry.ledger zones.old result zones.new ≡ advance_of version (whole lent.entry.ledger zones.old) call }
{
    if battery::call_ranges::call_in_range(version, lent.ledger.card, call) {
        return operation_step(version, lent, Operation::from(call), zones);
    }
    Err(Refusal::BadCall)
}

// A call on an accepted battery by value.
#[tactic(auto, using(crate::proofs::Accepted::accepted_few, crate::proofs::ByValue::by_value_answer, crate::proofs::ByValue::by_value_refused))]
pub fn advance(version: u8, battery: Battery, call: Call) -> Answer
    requires { battery_accepted version battery ≡ true }
    ensures { result ≡ advance_of version battery call }
{
    let figures = card::pcm::figures_of(battery.card);
    let salts = card::pcm::lent(battery.card, &figures);
    let ledger = battery::ledger_of(battery);
    let lent = Lent { ledger, salts };
    let mut zones = battery.zones;
    match advance_accepted(version, lent, call, &mut zones) {
        Ok(reply) => {
            let mut renewed = Battery { zones, ..battery };
            renewed.set_totals(reply.totals);
            reply.answer(renewed)
        }
        Err(refusal) => battery::answers::refused(refusal, battery),
    }
}
