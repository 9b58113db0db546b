// Refusal 10's tests of a call's fields. Kind, lengths, flags and marks are the sheet's.
ghost use Rattle.std.specs.Prelude.{◌≡◌};
ghost use Rattle.battery.specs.Call.{is_level, is_given_temperature, demand_in_range, hydronic_in_range, call_in_range};

use crate::{Call, Demand, Hydronic};
use card::Card;

#[tactic(auto, unfolding(crate::specs::Call::is_level))]
fn is_level(x: f64) -> bool
    ensures { result ≡ is_level x }
{
    card::ranges::within(0.0, 1.0, x)
}

#[tactic(auto, unfolding(crate::specs::Call::is_given_temperature))]
fn is_given_temperature(given: Option<f64>) -> bool
    ensures { result ≡ is_given_temperature given }
{
    match given {
        None => true,
        Some(t) => card::ranges::is_temperature(t),
    }
}

#[tactic(auto, unfolding(crate::specs::Call::demand_in_range))]
fn demand_in_range(card: Card, demand: Demand) -> bool
    ensures { result ≡ demand_in_range card demand }
{
    (demand.service <= 3)
        & card::ranges::within(-1000000.0, 1000000.0, demand.required)
        & card::ranges::within(0.0, card.timestep, demand.start)
        & is_given_temperature(demand.feed)
}

#[tactic(auto, unfolding(crate::specs::Call::hydronic_in_range))]
fn hydronic_in_range(hydronic: Hydronic) -> bool
    ensures { result ≡ hydronic_in_range hydronic }
{
    let exchanger = card::ranges::is_coefficient(hydronic.a)
        & card::ranges::is_coefficient(hydronic.b)
        & card::ranges::is_velocity(hydronic.velocity)
        & card::ranges::within(0.00001, 1.0, hydronic.diameter);
    card::ranges::is_temperature(hydronic.inlet)
        & card::ranges::within(0.0, 24.0, hydronic.hours)
        & card::ranges::is_flow(hydronic.flow)
        & is_level(hydronic.target)
        & card::ranges::within(0.0, 1000000.0, hydronic.limit)
        & exchanger
}

// Refusal 10's test of a call's fields: false where it is refused. A match and no table of closures, which could leave a kind out.
#[tactic(auto, unfolding(crate::specs::Call::call_in_range))]
pub fn call_in_range(version: u8, card: Card, call: Call) -> bool
    ensures { result ≡ call_in_range version card call }
{
    match call {
        Call::DemandEnergy(d) => demand_in_range(card, d),
        Call::ChargeElectric(power, target) => { card::ranges::is_power(power) & is_level(target) }
        Call::ChargeHydronic(h) => hydronic_in_range(h),
        Call::HeatLoss(_) | Call::CloseTimestep | Call::ReadStateOfCharge => true,
        Call::ChargeEnergyDemand(most, target) => { is_given_temperature(most) & is_level(target) }
    }
}
