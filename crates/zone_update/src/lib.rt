// Document 01, module 2, with document 02's lowest temperature. The Rust's heat ranges 1, 2 and 3 lie above, within and below the melting range.
#![tactic(auto)]

ghost use Rattle.std.specs.Prelude.{◌≡◌};
ghost use Rattle.zone_update.specs.Update.{delivering_from_above, delivering as delivering_of, retrieving_from_below, retrieving as retrieving_of, zone_falls, lowered as lowered_of, new_zone_temperature, floored as floored_of, zone_update};

use zone::{Kilojoules, Salt};

// Falls of a zone's temperature above, within and below the melting range; none by default.
#[derive(Clone, Copy, Default)]
pub struct Deltas {
    pub above: f64,
    pub during: f64,
    pub below: f64,
}

// A zone after an energy transfer: what was taken of the energy, and what couldn't be.
#[derive(Clone, Copy)]
pub struct ZoneUpdate {
    pub temperature: f64,
    pub taken: Kilojoules,
    pub rest: Kilojoules,
}

// A zone at upper or warmer gives up the energy e > 0.
#[tactic(auto, unfolding(crate::specs::Update::delivering_from_above))]
fn delivering_from_above(salt: Salt, zone: f64, energy: Kilojoules) -> Deltas
    ensures { result ≡ delivering_from_above salt zone energy }
{
    let heat_range_1 = (zone - salt.upper) * salt.above;
    let heat_range_2 = (salt.upper - salt.lower) * salt.during;
    if energy.0 <= heat_range_1 {
        return Deltas {
            above: energy.0 / salt.above,
            ..Deltas::default()
        };
    }
    if energy.0 - heat_range_1 <= heat_range_2 {
        return Deltas {
            above: zone - salt.upper,
            during: (energy.0 - heat_range_1) / salt.during,
            ..Deltas::default()
        };
    }
    Deltas {
        above: zone - salt.upper,
        during: salt.upper - salt.lower,
        below: (energy.0 - heat_range_1 - heat_range_2) / salt.below,
    }
}

// A zone gives up the energy e > 0.
#[tactic(auto, unfolding(crate::specs::Update::delivering))]
fn delivering(salt: Salt, zone: f64, energy: Kilojoules) -> Deltas
    ensures { result ≡ delivering_of salt zone energy }
{
    if zone >= salt.upper {
        return delivering_from_above(salt, zone, energy);
    }
    if salt.lower <= zone {
        let heat_range_2 = (zone - salt.lower) * salt.during;
        if energy.0 <= heat_range_2 {
            return Deltas {
                during: energy.0 / salt.during,
                ..Deltas::default()
            };
        }
        return Deltas {
            during: zone - salt.lower,
            below: (energy.0 - heat_range_2) / salt.below,
            ..Deltas::default()
        };
    }
    Deltas {
        below: energy.0 / salt.below,
        ..Deltas::default()
    }
}

// A zone at lower or cooler takes up the energy -e, e < 0.
#[tactic(auto, unfolding(crate::specs::Update::retrieving_from_below))]
fn retrieving_from_below(salt: Salt, zone: f64, energy: Kilojoules) -> Deltas
    ensures { result ≡ retrieving_from_below salt zone energy }
{
    let heat_range_3 = (zone - salt.lower) * salt.below;
    let heat_range_2 = (salt.lower - salt.upper) * salt.during;
    if energy.0 >= heat_range_3 {
        return Deltas {
            below: energy.0 / salt.below,
            ..Deltas::default()
        };
    }
    if energy.0 - heat_range_3 >= heat_range_2 {
        return Deltas {
            during: (energy.0 - heat_range_3) / salt.during,
            below: zone - salt.lower,
            ..Deltas::default()
        };
    }
    Deltas {
        above: (energy.0 - heat_range_3 - heat_range_2) / salt.above,
        during: salt.lower - salt.upper,
        below: zone - salt.lower,
    }
}

// A zone takes up the energy -e, e < 0.
#[tactic(auto, unfolding(crate::specs::Update::retrieving))]
fn retrieving(salt: Salt, zone: f64, energy: Kilojoules) -> Deltas
    ensures { result ≡ retrieving_of salt zone energy }
{
    if zone <= salt.lower {
        return retrieving_from_below(salt, zone, energy);
    }
    if zone <= salt.upper {
        let heat_range_2 = (zone - salt.upper) * salt.during;
        if energy.0 >= heat_range_2 {
            return Deltas {
                during: energy.0 / salt.during,
                ..Deltas::default()
            };
        }
        return Deltas {
            above: (energy.0 - heat_range_2) / salt.above,
            during: zone - salt.upper,
            ..Deltas::default()
        };
    }
    Deltas {
        above: energy.0 / salt.above,
        ..Deltas::default()
    }
}

fn lowered(zone: f64, deltas: Deltas) -> f64
    ensures { result ≡ lowered_of zone deltas }
{
    zone - (deltas.above + deltas.during + deltas.below)
}

// The falls of a zone that gives up the energy e. Nearly equal to 0 is a magnitude of at most NEGLIGIBLE_ENERGY_KJ, and two comparisons cost
// less; a NaN leaves the zone.
#[tactic(auto, unfolding(crate::specs::Update::zone_falls))]
fn zone_falls(salt: Salt, zone: f64, energy: Kilojoules) -> Deltas
    ensures { result ≡ zone_falls salt zone energy }
{
    if energy.0 > floats::NEGLIGIBLE_ENERGY_KJ {
        return delivering(salt, zone, energy);
    }
    if energy.0 < -floats::NEGLIGIBLE_ENERGY_KJ {
        return retrieving(salt, zone, energy);
    }
    Deltas::default()
}

// A zone is lowered in one place, by falls of 0 where it stays. In place in the loop of every mode: as a call it took a demand a third more instructions.
#[inline(always)]
#[tactic(auto, using(crate::proofs::Lowering::lowered_by_falls))]
fn new_zone_temperature(salt: Salt, zone: f64, energy: Kilojoules) -> f64
    ensures { result ≡ new_zone_temperature salt zone energy }
{
    let d = zone_falls(salt, zone, energy);
    lowered(zone, d)
}

// A zone that would be at `after` if there were no lowest temperature.
#[tactic(auto, unfolding(crate::specs::Update::floored))]
fn floored(lowest: f64, salt: Salt, zone: f64, energy: Kilojoules, after: f64) -> ZoneUpdate
    ensures { result ≡ floored_of lowest salt zone energy after }
{
    if zone <= lowest {
        return ZoneUpdate {
            temperature: zone,
            taken: Kilojoules(0.0),
            rest: energy,
        };
    }
    if after < lowest {
        let held = zone::layer::calculate_layer_energy_stored(zone, lowest, salt);
        let taken = floats::min(energy.0, held.0);
        return ZoneUpdate {
            temperature: lowest,
            taken: Kilojoules(taken),
            rest: Kilojoules(energy.0 - taken),
        };
    }
    ZoneUpdate {
        temperature: after,
        taken: energy,
        rest: Kilojoules(0.0),
    }
}

// The one update of every mode, with the lowest temperature that it may leave a zone at, if there is one. In place too: where there is none, no zone is
// asked for it.
#[inline(always)]
#[tactic(auto, unfolding(crate::specs::Update::zone_update))]
pub fn calculate_new_zone_temperature(
    salt: Salt,
    zone: f64,
    energy: Kilojoules,
    lowest: Option<f64>,
) -> ZoneUpdate
    ensures { result ≡ zone_update lowest salt zone energy }
{
    let temperature = new_zone_temperature(salt, zone, energy);
    match lowest {
        None => ZoneUpdate {
            temperature,
            taken: energy,
            rest: Kilojoules(0.0),
        },
        Some(lowest) => floored(lowest, salt, zone, energy, temperature),
    }
}
