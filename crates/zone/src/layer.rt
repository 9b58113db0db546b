// Document 01, module 1.
ghost use Rattle.std.specs.Prelude.{◌≡◌, ◌≤◌, length};
ghost use Rattle.zone.specs.Layer.{layer_energy_stored, temp_at, soc_to_temp, stored_energy, level_of, state_of_charge, zone_energy_required};
ghost use Rattle.zone.specs.LentSalts.{lent_salt};

use crate::lent::LentSalts;
use crate::{Kilojoules, Salt};

// The energy of a layer at `layer` °C above `reference`.
#[tactic(auto, unfolding(crate::specs::Layer::layer_energy_stored))]
pub fn calculate_layer_energy_stored(layer: f64, reference: f64, salt: Salt) -> Kilojoules
    ensures { result ≡ layer_energy_stored layer reference salt }
{
    if layer <= reference {
        return Kilojoules(0.0);
    }
    if layer <= salt.lower {
        return Kilojoules((layer - reference) * salt.below);
    }
    if reference >= salt.upper {
        return Kilojoules((layer - reference) * salt.above);
    }
    if reference >= salt.lower {
        if layer <= salt.upper {
            return Kilojoules((layer - reference) * salt.during);
        }
        return Kilojoules(
            (salt.upper - reference) * salt.during + (layer - salt.upper) * salt.above,
        );
    }
    if layer <= salt.upper {
        return Kilojoules(
            (salt.lower - reference) * salt.below + (layer - salt.lower) * salt.during,
        );
    }
    Kilojoules(
        (salt.lower - reference) * salt.below
            + (salt.upper - salt.lower) * salt.during
            + (layer - salt.upper) * salt.above,
    )
}

// The temperature at which a layer holds `energy`, from its energies at lower and at upper.
#[tactic(auto, unfolding(crate::specs::Layer::temp_at))]
fn temp_at(
    salt: Salt,
    reference: f64,
    energy: Kilojoules,
    lower: Kilojoules,
    upper: Kilojoules,
) -> f64
    ensures { result ≡ temp_at salt reference energy lower upper }
{
    if energy.0 <= lower.0 {
        return reference + energy.0 / salt.below;
    }
    if energy.0 <= upper.0 {
        return salt.lower + (energy.0 - lower.0) / salt.during;
    }
    salt.upper + (energy.0 - upper.0) / salt.above
}

#[tactic(auto, unfolding(crate::specs::Layer::soc_to_temp))]
pub fn soc_to_temp(salt: Salt, reference: f64, max: f64, soc: f64) -> f64
    ensures { result ≡ soc_to_temp salt reference max soc }
{
    if soc <= 0.0 {
        return reference;
    }
    if soc >= 1.0 {
        return max;
    }
    let most = calculate_layer_energy_stored(max, reference, salt);
    let lower = calculate_layer_energy_stored(salt.lower, reference, salt);
    let upper = calculate_layer_energy_stored(salt.upper, reference, salt);
    temp_at(salt, reference, Kilojoules(soc * most.0), lower, upper)
}

// The energy of zones above `reference`.
#[tactic(auto, using(crate::proofs::Sums::stored_more, crate::proofs::Sums::stored_end), unfolding(crate::specs::Layer::stored_energy))]
pub fn stored_energy<const APART: usize>(
    salts: LentSalts<'_, APART>,
    reference: f64,
    zones: &[f64],
) -> Kilojoules
    requires { length zones.now ≤ salts.layers }
    ensures { result ≡ stored_energy (lent_salt salts.entry) reference zones.now (length zones.now) }
{
    let mut sum = Kilojoules(0.0);
    for (k, zone) in zones.iter().enumerate() {
        let layer = calculate_layer_energy_stored(*zone, reference, salts.zone(k));
        sum = Kilojoules(sum.0 + layer.0);
    }
    sum
}

// A level of at most 1; none above 1.0 + 1e-10, which 25 refuses.
#[tactic(auto, unfolding(crate::specs::Layer::level_of))]
fn level_of(soc: f64) -> Option<f64>
    ensures { result ≡ level_of soc }
{
    if soc > 1.0 + floats::TOLERANCE {
        return None;
    }
    let level = floats::min(soc, 1.0);
    Some(level)
}

// `stored` is the stored maximum; none where 25 refuses.
#[tactic(auto, unfolding(crate::specs::Layer::state_of_charge))]
pub fn calc_state_of_charge<const APART: usize>(
    salts: LentSalts<'_, APART>,
    reference: f64,
    stored: Kilojoules,
    zones: &[f64],
) -> Option<f64>
    requires { length zones.now ≤ salts.layers }
    ensures { result ≡ state_of_charge (lent_salt salts.entry) reference stored zones.now (length zones.now) }
{
    let sum = stored_energy(salts, reference, zones);
    level_of(sum.0 / stored.0)
}

// Negative where the zone has to take heat to reach its target.
#[tactic(auto, unfolding(crate::specs::Layer::zone_energy_required))]
pub fn calculate_zone_energy_required(salt: Salt, zone: f64, target: f64) -> Kilojoules
    ensures { result ≡ zone_energy_required salt zone target }
{
    if zone >= salt.upper {
        return Kilojoules(salt.above * (zone - target));
    }
    if zone >= salt.lower {
        if target > salt.upper {
            return Kilojoules(
                salt.above * (salt.upper - target) + salt.during * (zone - salt.upper),
            );
        }
        return Kilojoules(salt.during * (zone - target));
    }
    if target > salt.upper {
        return Kilojoules(
            salt.above * (salt.upper - target)
                + salt.during * (salt.lower - salt.upper)
                + salt.below * (zone - salt.lower),
        );
    }
    if target > salt.lower {
        return Kilojoules(salt.during * (salt.lower - target) + salt.below * (zone - salt.lower));
    }
    Kilojoules(salt.below * (zone - target))
}
