// The engine: document 01's steps. `advance` takes a battery and a call by value and gives the answer with the new battery.
#![tactic(auto)]

mod demand;
pub mod steps;

ghost use Rattle.std.specs.Prelude.{◌≡◌};
ghost use Rattle.engine.specs.Operations.{operation_of};

use battery::{Call, Demand};
use runs::{Exchanger, Source};

// What a call asks: its kind, the charges by their source.
#[derive(Clone, Copy)]
pub enum Operation {
    DemandEnergy(Demand),
    // source, target
    Charge(Source, f64),
    // whether there is a floor
    HeatLoss(bool),
    CloseTimestep,
    ReadStateOfCharge,
    // flow maximum, target
    ChargeEnergyDemand(Option<f64>, f64),
}

// The electric and the wet charge are one operation.
impl From<Call> for Operation {
    ghost from_gives = { λ call what. what ≡ operation_of call };

    #[tactic(auto, unfolding(crate::specs::Operations::operation_of, crate::specs::Steps::wet_source))]
    fn from(call: Call) -> Operation {
        match call {
            Call::DemandEnergy(d) => Operation::DemandEnergy(d),
            Call::ChargeElectric(power, target) => Operation::Charge(
                Source::Electric(power),
                target,
            ),
            Call::ChargeHydronic(h) => Operation::Charge(Source::Wet(Exchanger::from(h)), h.target),
            Call::HeatLoss(floor) => Operation::HeatLoss(floor),
            Call::CloseTimestep => Operation::CloseTimestep,
            Call::ReadStateOfCharge => Operation::ReadStateOfCharge,
            Call::ChargeEnergyDemand(most, target) => Operation::ChargeEnergyDemand(most, target),
        }
    }
}
