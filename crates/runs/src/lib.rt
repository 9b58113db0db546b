// What every run of substeps has, and the structs of document 01's module 6. Its functions are in `run_hydronic` and `run_charges`.
#![tactic(auto)]

ghost use Rattle.std.specs.Prelude.{◌≡◌};
ghost use Rattle.refusals.specs.Number.{refused_number};
ghost use Rattle.runs.specs.Charge.{wet_of};
ghost use Rattle.runs.specs.Runs.{fault_end, end_refusal, reynold_between, time_available};

use battery::{Hydronic, Ledger};
use card::{Card, HeatBatteryPcm};
use refusals::Refusal;
use substep::Fault;
use zone::{Kilojoules, KilowattHours};

// How a run of substeps ends. The last three are refusals 22, 24 and 23.
#[derive(Clone, Copy)]
pub enum End {
    Done,
    // demand: negative delivery, demand met, no positive step
    Negative,
    Met,
    NoStep,
    // hydronic: the outlet is not clearly below the inlet, the limit is reached, the time is used
    Level,
    Limit,
    Time,
    OverBudget,
    NoLogarithm,
    NotFiniteRun,
}

// What the substeps of a run leave of its state, how they ended, and how many there were.
#[derive(Clone, Copy)]
pub struct Ended<S> {
    pub state: S,
    pub end: End,
    pub substeps: u32,
}

// What a run hands out; its zones stay where they lie.
#[derive(Clone, Copy)]
pub struct Stopped {
    pub energy: KilowattHours,
    // the charged electric total after the run
    pub electric: KilowattHours,
    pub outlet: f64,
    // seconds
    pub time: f64,
    pub end: End,
    pub substeps: u32,
}

// A wet source's figures: a hydronic call's without its target, which stands beside every source. The call is a struct of its own, whose fields the
// definitions and refusal 10 cite.
#[derive(Clone, Copy)]
pub struct Exchanger {
    pub inlet: f64,
    pub hours: f64,
    // l/min
    pub flow: f64,
    // kWh
    pub limit: f64,
    pub a: f64,
    pub b: f64,
    pub velocity: f64,
    // metres
    pub diameter: f64,
}

impl From<Hydronic> for Exchanger {
    ghost from_gives = { λ hydronic wet. wet ≡ wet_of hydronic };

    fn from(hydronic: Hydronic) -> Exchanger {
        Exchanger {
            inlet: hydronic.inlet,
            hours: hydronic.hours,
            flow: hydronic.flow,
            limit: hydronic.limit,
            a: hydronic.a,
            b: hydronic.b,
            velocity: hydronic.velocity,
            diameter: hydronic.diameter,
        }
    }
}

#[derive(Clone, Copy)]
pub enum Source {
    // rated power in kW
    Electric(f64),
    Wet(Exchanger),
}

#[derive(Clone, Copy)]
pub struct HydronicTask {
    pub card: Card,
    pub pcm: HeatBatteryPcm,
    pub wet: Exchanger,
    pub target: f64,
    pub limit: Kilojoules,
}

// What the substeps of a hydronic charge change.
#[derive(Clone, Copy)]
pub struct HydronicState {
    pub absorbed: Kilojoules,
    pub reynold: f64,
    // seconds
    pub time: f64,
}

// A turn takes one substep or two, so it counts them, as a demand's turn does not.
#[derive(Clone, Copy)]
pub struct HydronicTurn {
    pub state: HydronicState,
    // none to go on
    pub next: Option<End>,
    pub substeps: u32,
}

impl From<Option<Fault>> for End {
    ghost from_gives = { λ fault end. end ≡ fault_end fault };

    #[tactic(auto, unfolding(crate::specs::Runs::fault_end))]
    fn from(fault: Option<Fault>) -> End {
        match fault {
            None => End::Done,
            Some(Fault::Logarithm) => End::NoLogarithm,
            Some(Fault::NotFinite) => End::NotFiniteRun,
        }
    }
}

// Whether an end answers.
#[tactic(auto, unfolding(crate::specs::Runs::end_refusal))]
pub fn end_refusal(end: End) -> Result<(), Refusal>
    ensures { refused_number result ≡ end_refusal end }
{
    match end {
        End::Done | End::Negative | End::Met | End::NoStep | End::Level | End::Limit | End::Time =>
            Ok(()),
        End::OverBudget => Err(Refusal::OverBudget),
        End::NotFiniteRun => Err(Refusal::NotFinite),
        End::NoLogarithm => Err(Refusal::NoLogarithm),
    }
}

#[tactic(auto, unfolding(crate::specs::Runs::reynold_between))]
pub fn reynold_between(inlet: f64, outlet: f64, velocity: f64, diameter: f64) -> f64
    ensures { result ≡ reynold_between inlet outlet velocity diameter }
{
    let viscosity = zone_water::calculate_water_kinematic_viscosity_m2_per_s(inlet, outlet);
    zone_water::calculate_reynold_number_at_1_l_per_min(viscosity, velocity, diameter)
}

// Hours.
#[tactic(auto, unfolding(crate::specs::Runs::time_available))]
pub fn time_available(ledger: Ledger, start: f64) -> f64
    ensures { result ≡ time_available ledger start }
{
    let timestep = ledger.card.timestep;
    (timestep - ledger.totals.total) * (1.0 - start / timestep)
}
