// Document 01, module 3. The charger's heat left is negative, since heat is positive where a zone gives it up.
#![tactic(auto)]

ghost use Rattle.std.specs.Prelude.{◌≡◌};
ghost use Rattle.floats.specs.Constants.{zero};
ghost use Rattle.zone.specs.Heat.{kj};
ghost use Rattle.zone_charging.specs.Charging.{counted as counted_of, charging_withdrawn, charging_added, charging_full, zone_simultaneous_charging};

use zone::{Kilojoules, KilowattHours, Salt};

// A zone's part of a charge: the charger's heat left (negative), the energy charged so far, the heat that the zone gives up. What goes in are numbers of the
// same three kinds, in the Rust's order: a struct for them would be taken apart at once.
#[derive(Clone, Copy)]
pub struct Charged {
    pub left: Kilojoules,
    pub charged: KilowattHours,
    pub heat: Kilojoules,
}

// The energy charged so far and the heat q, counted in kilowatt-hours.
#[tactic(auto, unfolding(crate::specs::Charging::counted))]
fn counted(charged: KilowattHours, energy: Kilojoules) -> KilowattHours
    ensures { result ≡ counted_of charged energy }
{
    let more = energy.kilowatt_hours();
    KilowattHours(charged.0 + more.0)
}

// A zone below its target, from which the water withdraws the heat e ≥ 0.
#[tactic(auto, unfolding(crate::specs::Charging::charging_withdrawn))]
fn charging_withdrawn(
    required: Kilojoules,
    left: Kilojoules,
    energy: Kilojoules,
    charged: KilowattHours,
) -> Charged
    ensures { result ≡ charging_withdrawn required left energy charged }
{
    if -left.0 >= energy.0 {
        let rest = left.0 + energy.0;
        let recovered = counted(charged, energy);
        if rest > required.0 {
            let all = counted(recovered, Kilojoules(-rest));
            return Charged {
                left: Kilojoules(0.0),
                charged: all,
                heat: Kilojoules(0.0 + rest),
            };
        }
        let some = counted(recovered, Kilojoules(-required.0));
        return Charged {
            left: Kilojoules(rest - required.0),
            charged: some,
            heat: Kilojoules(0.0 + required.0),
        };
    }
    let part = counted(charged, Kilojoules(-left.0));
    Charged {
        left: Kilojoules(0.0),
        charged: part,
        heat: Kilojoules(energy.0 + left.0),
    }
}

// A zone below its target, to which the water adds heat, e < 0.
#[tactic(auto, unfolding(crate::specs::Charging::charging_added))]
fn charging_added(
    required: Kilojoules,
    left: Kilojoules,
    energy: Kilojoules,
    charged: KilowattHours,
) -> Charged
    ensures { result ≡ charging_added required left energy charged }
{
    if left.0 + energy.0 > required.0 {
        let all = counted(charged, Kilojoules(-left.0));
        return Charged {
            left: Kilojoules(0.0),
            charged: all,
            heat: Kilojoules(left.0 + energy.0),
        };
    }
    if energy.0 >= required.0 {
        let some = counted(charged, Kilojoules(-(required.0 - energy.0)));
        return Charged {
            left: Kilojoules(left.0 - (required.0 - energy.0)),
            charged: some,
            heat: required,
        };
    }
    Charged {
        left,
        charged,
        heat: energy,
    }
}

// A zone at its target or above.
#[tactic(auto, unfolding(crate::specs::Charging::charging_full))]
fn charging_full(left: Kilojoules, energy: Kilojoules, charged: KilowattHours) -> Charged
    ensures { result ≡ charging_full left energy charged }
{
    if energy.0 >= 0.0 {
        if -left.0 > energy.0 {
            let recovered = counted(charged, energy);
            return Charged {
                left: Kilojoules(left.0 + energy.0),
                charged: recovered,
                heat: Kilojoules(0.0),
            };
        }
        let part = counted(charged, Kilojoules(-left.0));
        return Charged {
            left: Kilojoules(0.0),
            charged: part,
            heat: Kilojoules(energy.0 + left.0),
        };
    }
    Charged {
        left,
        charged,
        heat: energy,
    }
}

#[tactic(auto, unfolding(crate::specs::Charging::zone_simultaneous_charging))]
pub fn process_zone_simultaneous_charging(
    salt: Salt,
    zone: f64,
    target: f64,
    left: Kilojoules,
    energy: Kilojoules,
    charged: KilowattHours,
) -> Charged
    ensures { result ≡ zone_simultaneous_charging salt zone target left energy charged }
{
    if zone < target {
        let required = zone::layer::calculate_zone_energy_required(salt, zone, target);
        if energy.0 >= 0.0 {
            return charging_withdrawn(required, left, energy, charged);
        }
        return charging_added(required, left, energy, charged);
    }
    charging_full(left, energy, charged)
}

// The same in charging alone, where no water runs: short enough to be compiled in place in a loop of its own.
// As a call of the one above, which then is nowhere compiled in place, an electric charge on 64 layers takes 21 % more instructions, a demand while
// charging there 15 %.
#[tactic(auto, unfolding(crate::specs::Charging::zone_simultaneous_charging))]
pub fn charge_zone_alone(
    salt: Salt,
    zone: f64,
    target: f64,
    left: Kilojoules,
    charged: KilowattHours,
) -> Charged
    ensures { result ≡ zone_simultaneous_charging salt zone target left (kj zero) charged }
{
    if zone < target {
        let required = zone::layer::calculate_zone_energy_required(salt, zone, target);
        return charging_withdrawn(required, left, Kilojoules(0.0), charged);
    }
    charging_full(left, Kilojoules(0.0), charged)
}
