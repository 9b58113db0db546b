// Ids 26 to 30: module 4. The function of an id answers whether a record agrees.
use card::Card;
use vectors_words::Words;
use zone::Kilojoules;
use zone_water::{Mode, Shared, ZoneProperties};

pub fn viscosity(words: Words<'_>) -> bool {
    let inlet = words.number(0);
    let outlet = words.number(1);
    let r = zone_water::calculate_water_kinematic_viscosity_m2_per_s(inlet, outlet);
    words.ends_with(2, r)
}

pub fn reynolds(words: Words<'_>) -> bool {
    let viscosity = words.number(0);
    let velocity = words.number(1);
    let diameter = words.number(2);
    let r = zone_water::calculate_reynold_number_at_1_l_per_min(viscosity, velocity, diameter);
    words.ends_with(3, r)
}

// The heat transfer of a, b, flow and Reynolds number at the words given.
fn transfer(words: Words<'_>, a: usize, b: usize, flow: usize, reynolds: usize) -> Option<f64> {
    let flow = words.number(flow);
    let reynold = words.number(reynolds);
    let a = words.number(a);
    let b = words.number(b);
    let transfer = zone_water::calculate_heat_transfer_kw_per_k(a, b, flow, reynold);
    transfer.value
}

pub fn heat_transfer(words: Words<'_>) -> bool {
    let r = transfer(words, 0, 1, 2, 3);
    words.has(6) & words.option_is(4, r)
}

pub fn outlet(words: Words<'_>) -> bool {
    let zone = words.number(1);
    let inlet = words.number(2);
    let mass = words.number(3);
    let r = zone_water::calculate_outlet_temp_c(words.number(0), zone, inlet, mass);
    words.ends_with(4, r)
}

// A mark, energy and outlet; all 0 where the logarithm is refused.
fn properties_are(words: Words<'_>, properties: Option<ZoneProperties>) -> bool {
    let energy = properties.map(|p| p.energy.0);
    let outlet = properties.map_or(0.0, |p| p.outlet);
    words.option_is(33, energy) & words.ends_with(35, outlet)
}

// Of a zone with its share of the heat transfer.
fn properties(words: Words<'_>, card: Card, mode: Mode, share: f64) -> ZoneProperties {
    let pcm = card::pcm::derived(card);
    let mass = zone_water::mass_flow(words.number(30));
    let shared = Shared {
        layers: card.layers,
        inlet: words.number(25),
        rated: pcm.rated,
        transfer: share,
        mass,
        seconds: words.number(29),
    };
    let left = Kilojoules(words.number(27));
    let zone = words.number(24);
    zone_water::get_zone_properties(mode, shared, zone, words.number(26), left)
}

pub fn zone_properties(words: Words<'_>) -> bool {
    let card = words.rest().card();
    let mode = crate::mode_of(words.word(0));
    let share = match mode {
        Mode::OnlyCharging | Mode::Losses(_) => Some(0.0),
        Mode::Normal => transfer(words, 31, 32, 30, 28).map(|whole| whole / (card.layers as f64)),
    };
    properties_are(
        words,
        share.map(|share| properties(words, card, mode, share)),
    )
}
