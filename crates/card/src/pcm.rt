// What HeatBatteryPcm::new derives from a card.
ghost use Rattle.std.specs.Prelude.{◌≡◌, ◌≤◌};
ghost use Rattle.zone.specs.LentSalts.{lent_salts};
ghost use Rattle.card.specs.Derived.{salt_of, salts_of, energy_at, derived as derived_of};
ghost use Rattle.card.specs.Lent.{figures_of};

use crate::{Card, HeatBatteryPcm};
use zone::lent::LentSalts;
use zone::{Kilojoules, Salt};

// The salt of a layer: its capacities are the card's divided by the layers.
#[tactic(auto, unfolding(crate::specs::Derived::salt_of))]
pub fn salt_of(card: Card) -> Salt
    ensures { result ≡ salt_of card }
{
    let layers = card.layers as f64;
    Salt {
        lower: card.lower,
        upper: card.upper,
        below: card.below / layers,
        during: card.during / layers,
        above: card.above / layers,
    }
}

// The same as figures, to be lent with the step 0.
#[tactic(auto, unfolding(crate::specs::Lent::figures_of))]
pub fn figures_of(card: Card) -> [f64; 5]
    ensures { result ≡ figures_of card }
{
    let salt = salt_of(card);
    [salt.lower, salt.upper, salt.below, salt.during, salt.above]
}

// Those figures as they are lent: one salt for all layers.
#[tactic(auto, using(zone::proofs::Salts::step_by_none, crate::proofs::Figures::figures_salts))]
pub fn lent(card: Card, figures: &[f64; 5]) -> LentSalts<'_, 0>
    requires { (card.layers ≤ 64) × (figures.now ≡ figures_of card) }
    ensures layers { result.layers ≡ card.layers }
    ensures salts { lent_salts result ≡ salts_of card }
{
    LentSalts {
        figures,
        step: 0,
        layers: card.layers,
    }
}

// The energy above ref of the whole battery at one temperature.
#[tactic(auto, unfolding(crate::specs::Derived::energy_at), using(zone::proofs::Salts::salts_one, zone::proofs::Salts::salts_each, zone::proofs::Sums::stored_front))]
pub fn energy_at<const APART: usize>(
    card: Card,
    salts: LentSalts<'_, APART>,
    temperature: f64,
) -> Kilojoules
    requires { card.layers ≤ salts.layers }
    ensures { result ≡ energy_at (lent_salts salts.entry) card temperature }
{
    if salts.stride() == 0 {
        let salt = salts.zone(0);
        let layer = zone::layer::calculate_layer_energy_stored(temperature, card.reference, salt);
        let layers = card.layers as f64;
        return Kilojoules(layer.0 * layers);
    }
    let n = card.layers as usize;
    // an array, as there is no heap
    let zones = [temperature; 64];
    zone::layer::stored_energy(salts, card.reference, &zones[..n])
}

#[tactic(auto, unfolding(crate::specs::Derived::derived))]
pub fn derived(card: Card) -> HeatBatteryPcm
    ensures { result ≡ derived_of card }
{
    HeatBatteryPcm {
        rated: card.max - floats::TEMP_AMBIENT_RATED_LOSSES_C,
        diameter: card.diameter / floats::MILLIMETRES_IN_METRE,
    }
}
