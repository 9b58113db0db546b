// Document 01, module 7: the substeps of a demand.
#![tactic(auto)]

ghost use Rattle.std.specs.Prelude.{◌≡◌, ◌≤◌};
ghost use Rattle.zone.specs.LentSalts.{lent_salt};
ghost use Rattle.runs.specs.Runs.{end_refusal, next_refusal};
ghost use Rattle.runs.specs.Zoned.{zoned, AsDefined};
ghost use Rattle.run_demand.specs.Demand.{demand_input, capped as capped_of, next_step, demand_met, cut as cut_of, demand_state_after, demand_delivered, demand_substep, demand_run, demand_ended};

use card::{Card, HeatBatteryPcm};
use runs::{End, Ended, Stopped};
use substep::{Outcome, SubstepInput};
use zone::KilowattHours;
use zone::lent::LentSalts;
use zone_water::Mode;

// What a demand asks: fixed over its substeps.
#[derive(Clone, Copy)]
pub struct DemandTask {
    pub card: Card,
    pub pcm: HeatBatteryPcm,
    // °C of the return
    pub feed: f64,
    // kW of the charger
    pub power: f64,
    // of one unit
    pub demand: KilowattHours,
    // time available
    pub seconds: f64,
}

// What a demand's substeps change.
#[derive(Clone, Copy)]
pub struct DemandState {
    // seconds of the next substep
    pub step: f64,
    pub running: f64,
    pub delivered: KilowattHours,
    pub electric: KilowattHours,
    pub outlet: f64,
    pub reynold: f64,
}

#[derive(Clone, Copy)]
pub struct DemandTurn {
    pub state: DemandState,
    // none to go on
    pub next: Option<End>,
}

#[tactic(auto, unfolding(crate::specs::Demand::demand_input))]
fn demand_input(task: DemandTask, state: DemandState) -> SubstepInput
    ensures { result ≡ demand_input task state }
{
    let card = task.card;
    SubstepInput {
        mode: Mode::Normal,
        inlet: task.feed,
        seconds: state.step,
        reynold: state.reynold,
        flow: card.flow,
        power: task.power,
        target: 0.0,
        a: card.a,
        b: card.b,
    }
}

// At most the card's substep.
#[tactic(auto, unfolding(crate::specs::Demand::capped))]
fn capped(task: DemandTask, step: f64) -> f64
    ensures { result ≡ capped_of task step }
{
    let longest = task.card.substep;
    if step > longest { longest } else { step }
}

// The step that meets the demand at the power of this substep.
#[tactic(auto, unfolding(crate::specs::Demand::next_step))]
fn next_step(task: DemandTask, heat: KilowattHours, delivered: KilowattHours, step: f64) -> f64
    ensures { result ≡ next_step task heat delivered step }
{
    let power = heat.0 / step;
    if power > 0.0 {
        return capped(task, (task.demand.0 - delivered.0) / power);
    }
    capped(task, step)
}

#[tactic(auto, unfolding(crate::specs::Demand::demand_met))]
fn demand_met(task: DemandTask, delivered: KilowattHours) -> bool
    ensures { result ≡ demand_met task delivered }
{
    let demand = task.demand.0;
    if floats::nearly_equal(
        demand,
        delivered.0,
        floats::TOLERANCE,
        floats::DEMAND_RELATIVE,
    ) {
        return true;
    }
    delivered.0 > demand
}

// Cut to the time left.
#[tactic(auto, unfolding(crate::specs::Demand::cut))]
fn cut(task: DemandTask, running: f64, step: f64) -> f64
    ensures { result ≡ cut_of task running step }
{
    if running + step > task.seconds {
        return task.seconds - running;
    }
    step
}

#[tactic(auto, unfolding(crate::specs::Demand::demand_state_after))]
fn demand_state_after(
    task: DemandTask,
    state: DemandState,
    outcome: Outcome,
    step: f64,
    delivered: KilowattHours,
) -> DemandState
    ensures { result ≡ demand_state_after task state outcome step delivered }
{
    let card = task.card;
    DemandState {
        step,
        running: state.running + state.step,
        delivered,
        electric: KilowattHours(state.electric.0 + outcome.charged.0),
        outlet: outcome.outlet,
        reynold: runs::reynold_between(task.feed, outcome.outlet, card.velocity, task.pcm.diameter),
    }
}

#[tactic(auto, unfolding(crate::specs::Demand::demand_delivered))]
fn demand_delivered(task: DemandTask, last: DemandState, outcome: Outcome) -> DemandTurn
    ensures { result ≡ demand_delivered task last outcome }
{
    if outcome.delivered.0 < 0.0 {
        return DemandTurn {
            state: demand_state_after(task, last, outcome, last.step, last.delivered),
            next: Some(End::Negative),
        };
    }
    let heat = outcome.delivered.kilowatt_hours();
    let delivered = KilowattHours(last.delivered.0 + heat.0);
    let step = next_step(task, heat, delivered, last.step);
    if demand_met(task, delivered) {
        return DemandTurn {
            state: demand_state_after(task, last, outcome, step, delivered),
            next: Some(End::Met),
        };
    }
    let shorter = cut(task, last.running + last.step, step);
    DemandTurn {
        state: demand_state_after(task, last, outcome, shorter, delivered),
        next: None,
    }
}

// A demand charges to level 0, which is the reference by any salt.
fn demand_substep<const APART: usize>(
    task: DemandTask,
    salts: LentSalts<'_, APART>,
    state: DemandState,
    zones: &mut [f64; 64],
) -> DemandTurn
    requires { task.card.layers ≤ salts.layers }
    ensures { AsDefined (next_refusal result.next) result zones.new (demand_substep task (lent_salt salts.entry) (zoned state zones.old)) }
{
    let input = demand_input(task, state);
    let u = substep_loops::with_water::process_in_place(
        task.card,
        task.pcm,
        salts,
        input,
        task.card.reference,
        zones,
    );
    match u.fault {
        None => demand_delivered(task, state, u),
        Some(_) => DemandTurn {
            state,
            next: Some(End::from(u.fault)),
        },
    }
}

// The substeps from `start` on, at most `budget` of them.
pub fn demand_run<const APART: usize>(
    task: DemandTask,
    salts: LentSalts<'_, APART>,
    budget: u32,
    start: DemandState,
    zones: &mut [f64; 64],
) -> Ended<DemandState>
    requires { task.card.layers ≤ salts.layers }
    ensures as_defined { AsDefined (end_refusal result.end) result zones.new (demand_run task (lent_salt salts.entry) budget 0 (zoned start zones.old)) }
    ensures substeps_le_budget { result.substeps ≤ budget }
{
    let mut state = start;
    let mut substeps: u32 = 0;
    // no `for`: the loop is left by `break` with the end of the run, and hands out its count (document 01, 'a loop bounded by the budget')
    let end = loop {
        if !(state.step > 0.0) {
            break End::NoStep;
        }
        if substeps == budget {
            break End::OverBudget;
        }
        let turn = demand_substep(task, salts, state, zones);
        substeps += 1;
        state = turn.state;
        if let Some(e) = turn.next {
            break e;
        }
    };
    Ended {
        state,
        end,
        substeps,
    }
}

#[tactic(auto, unfolding(crate::specs::Demand::demand_ended))]
pub fn demand_ended(ended: Ended<DemandState>) -> Stopped
    ensures { result ≡ demand_ended ended }
{
    Stopped {
        energy: ended.state.delivered,
        electric: ended.state.electric,
        outlet: ended.state.outlet,
        time: ended.state.running,
        end: ended.end,
        substeps: ended.substeps,
    }
}
