// Document 01, module 6: the substeps of a hydronic charge. No charger heats during them, so none asks for a target.
#![tactic(auto)]

ghost use Rattle.std.specs.Prelude.{◌≡◌, not, List, Float, ◌+◌, ◌≤◌, ◌<◌};
ghost use Rattle.zone.specs.LentSalts.{lent_salt};
ghost use Rattle.runs.specs.Runs.{end_refusal, next_refusal};
ghost use Rattle.runs.specs.Zoned.{zoned, AsDefined};
ghost use Rattle.runs.specs.Hydronic.{wet_input, clearly_below, limit_reached, replay_by, replayed as replayed_of, fraction_seconds, hydronic_whole, hydronic_step, hydronic_run, hydronic_ended, whole_substeps};

use runs::{End, Ended, HydronicState, HydronicTask, HydronicTurn, Stopped};
use substep::{Fault, Outcome, SubstepInput};
use zone::lent::LentSalts;
use zone::{Kilojoules, KilowattHours};
use zone_water::Mode;

#[tactic(auto, unfolding(runs::specs::Hydronic::wet_input))]
fn wet_input(task: HydronicTask, seconds: f64, reynold: f64) -> SubstepInput
    ensures { result ≡ wet_input task seconds reynold }
{
    let wet = task.wet;
    SubstepInput {
        mode: Mode::Normal,
        inlet: wet.inlet,
        seconds,
        reynold,
        flow: wet.flow,
        power: 0.0,
        target: task.target,
        a: wet.a,
        b: wet.b,
    }
}

// Below, and not nearly equal.
#[tactic(auto, unfolding(runs::specs::Hydronic::clearly_below))]
fn clearly_below(outlet: f64, inlet: f64) -> bool
    ensures { result ≡ clearly_below outlet inlet }
{
    let near = floats::nearly_equal(outlet, inlet, floats::TOLERANCE, floats::MAX_RELATIVE);
    (outlet < inlet) & !near
}

#[tactic(auto, unfolding(runs::specs::Hydronic::limit_reached))]
fn limit_reached(absorbed: Kilojoules, limit: Kilojoules) -> bool
    ensures { result ≡ limit_reached absorbed limit }
{
    if absorbed.0 > limit.0 {
        return true;
    }
    floats::nearly_equal(absorbed.0, limit.0, floats::TOLERANCE, floats::MAX_RELATIVE)
}

// What the fractional substep leaves. An arm for each fault: one arm with `End::from` would need a lemma of its own beside these two.
#[tactic(auto, unfolding(runs::specs::Hydronic::replay_by), using(runs::proofs::InPlace::log_refused, runs::proofs::InPlace::finite_refused))]
fn replay_by(
    task: HydronicTask,
    n: u32,
    last: HydronicState,
    seconds: f64,
    reynold: f64,
    outcome: Outcome,
    fault: Option<Fault>,
) -> HydronicTurn
    ensures { (before zones : List Float) → AsDefined (next_refusal result.next) result zones (replay_by task n (zoned last before) seconds reynold (zoned outcome zones) fault) }
{
    match fault {
        None => HydronicTurn {
            state: HydronicState {
                absorbed: task.limit,
                reynold,
                time: last.time + seconds,
            },
            next: Some(End::Limit),
            substeps: n,
        },
        Some(Fault::Logarithm) => HydronicTurn {
            state: last,
            next: Some(End::NoLogarithm),
            substeps: n,
        },
        Some(Fault::NotFinite) => HydronicTurn {
            state: last,
            next: Some(End::NotFiniteRun),
            substeps: n,
        },
    }
}

// The fractional substep, from the zones before the whole one and with the Reynolds number after it. Here and below n goes beside the state, as in the
// definitions, whose state is what a substep reads.
fn replayed<const APART: usize>(
    task: HydronicTask,
    salts: LentSalts<'_, APART>,
    n: u32,
    state: HydronicState,
    seconds: f64,
    reynold: f64,
    zones: &mut [f64; 64],
) -> HydronicTurn
    requires { (task.card.layers ≤ salts.layers) × (n ≤ 65535) }
    ensures { AsDefined (next_refusal result.next) result zones.new (replayed_of task (lent_salt salts.entry) n (zoned state zones.old) seconds reynold) }
{
    if n == task.card.budget as u32 {
        return HydronicTurn {
            state,
            next: Some(End::OverBudget),
            substeps: n,
        };
    }
    let input = wet_input(task, seconds, reynold);
    let u = substep_loops::with_water::process_in_place(
        task.card, task.pcm, salts, input, 0.0, zones,
    );
    replay_by(task, n + 1, state, seconds, reynold, u, u.fault)
}

#[tactic(auto, unfolding(runs::specs::Hydronic::fraction_seconds))]
fn fraction_seconds(task: HydronicTask, absorbed: Kilojoules, this: Kilojoules) -> f64
    ensures { result ≡ fraction_seconds task absorbed this }
{
    let allowed = task.limit.0 - (absorbed.0 - this.0);
    task.card.substep * (allowed / this.0)
}

// What the whole substep leads to. `before` are the zones that it began with.
fn hydronic_whole<const APART: usize>(
    task: HydronicTask,
    salts: LentSalts<'_, APART>,
    n: u32,
    last: HydronicState,
    outcome: Outcome,
    before: [f64; 64],
    zones: &mut [f64; 64],
) -> HydronicTurn
    requires { (task.card.layers ≤ salts.layers) × (n ≤ 65535) }
    ensures { AsDefined (next_refusal result.next) result zones.new (hydronic_whole task (lent_salt salts.entry) n (zoned last before) (zoned outcome zones.old)) }
{
    let wet = task.wet;
    let reynold = runs::reynold_between(wet.inlet, outcome.outlet, wet.velocity, wet.diameter);
    let this = Kilojoules(-outcome.delivered.0);
    let absorbed = Kilojoules(last.absorbed.0 + this.0);
    let state = HydronicState {
        absorbed,
        reynold,
        time: last.time + task.card.substep,
    };
    if !clearly_below(outcome.outlet, wet.inlet) {
        return HydronicTurn {
            state: HydronicState {
                absorbed: last.absorbed,
                ..state
            },
            next: Some(End::Level),
            substeps: n,
        };
    }
    if !limit_reached(absorbed, task.limit) {
        return HydronicTurn {
            state,
            next: None,
            substeps: n,
        };
    }
    if this.0 > 0.0 {
        let seconds = fraction_seconds(task, absorbed, this);
        *zones = before;
        return replayed(task, salts, n, last, seconds, reynold, zones);
    }
    HydronicTurn {
        state,
        next: Some(End::Limit),
        substeps: n,
    }
}

// One turn after n substeps.
fn hydronic_step<const APART: usize>(
    task: HydronicTask,
    salts: LentSalts<'_, APART>,
    n: u32,
    state: HydronicState,
    zones: &mut [f64; 64],
) -> HydronicTurn
    requires { (task.card.layers ≤ salts.layers) × (n < 65535) }
    ensures { AsDefined (next_refusal result.next) result zones.new (hydronic_step task (lent_salt salts.entry) n (zoned state zones.old)) }
{
    let input = wet_input(task, task.card.substep, state.reynold);
    let before = *zones;
    let u = substep_loops::with_water::process_in_place(
        task.card, task.pcm, salts, input, 0.0, zones,
    );
    match u.fault {
        None => hydronic_whole(task, salts, n + 1, state, u, before, zones),
        Some(_) => HydronicTurn {
            state,
            next: Some(End::from(u.fault)),
            substeps: n + 1,
        },
    }
}

#[tactic(auto, unfolding(runs::specs::Hydronic::whole_substeps))]
pub fn whole_substeps(task: HydronicTask) -> u64
    ensures { result ≡ whole_substeps task }
{
    floats::bits::truncate(task.wet.hours * floats::SECONDS_PER_HOUR / task.card.substep)
}

// At most `steps` whole substeps from `start` on.
pub fn hydronic_run<const APART: usize>(
    task: HydronicTask,
    salts: LentSalts<'_, APART>,
    steps: u64,
    start: HydronicState,
    zones: &mut [f64; 64],
) -> Ended<HydronicState>
    requires { task.card.layers ≤ salts.layers }
    ensures { AsDefined (end_refusal result.end) result zones.new (hydronic_run task (lent_salt salts.entry) steps 0 (zoned start zones.old)) }
{
    let budget = task.card.budget as u32;
    let mut state = start;
    let mut substeps: u32 = 0;
    // no `for`: the loop is left by `break` with the end of the run, and a turn takes one substep or two
    let end = loop {
        if substeps as u64 == steps {
            break End::Time;
        }
        if substeps == budget {
            break End::OverBudget;
        }
        let turn = hydronic_step(task, salts, substeps, state, zones);
        substeps = turn.substeps;
        state = turn.state;
        if let Some(e) = turn.next {
            break e;
        }
    };
    Ended {
        state,
        end,
        substeps,
    }
}

#[tactic(auto, unfolding(runs::specs::Hydronic::hydronic_ended))]
pub fn hydronic_ended(electric: KilowattHours, ended: Ended<HydronicState>) -> Stopped
    ensures { result ≡ hydronic_ended electric ended }
{
    Stopped {
        energy: ended.state.absorbed.kilowatt_hours(),
        electric,
        outlet: 0.0,
        time: ended.state.time,
        end: ended.end,
        substeps: ended.substeps,
    }
}
