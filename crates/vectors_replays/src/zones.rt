// Ids 20 to 25 and 32: modules 1 to 3, the last with a lowest temperature. The function of an id answers whether a record agrees.
ghost use Rattle.std.specs.Prelude.{◌≤◌};

use card::Card;
use vectors_words::Words;
use zone::{Kilojoules, KilowattHours, Salt};

// The salt from word `at` on.
fn salt(words: Words<'_>, at: usize) -> Salt
    requires { at ≤ 512 }
{
    Salt {
        lower: words.number(at),
        upper: words.number(at + 1),
        below: words.number(at + 2),
        during: words.number(at + 3),
        above: words.number(at + 4),
    }
}

pub fn layer_energy(words: Words<'_>) -> bool {
    let layer = words.number(0);
    let reference = words.number(1);
    let r = zone::layer::calculate_layer_energy_stored(layer, reference, salt(words, 2));
    words.ends_with(7, r.0)
}

pub fn soc_to_temp(words: Words<'_>) -> bool {
    let card = words.card();
    let own = card::pcm::salt_of(card);
    let r = zone::layer::soc_to_temp(own, card.reference, card.max, words.number(23));
    words.ends_with(24, r)
}

// The state of charge of the zones after the card; none where 25 refuses.
pub fn level(words: Words<'_>, card: Card) -> Option<f64>
    requires { card.layers ≤ 64 }
{
    let n = card.layers as usize;
    let figures = card::pcm::figures_of(card);
    let salts = card::pcm::lent(card, &figures);
    let stored = card::pcm::energy_at(card, salts, card.max);
    let zones = words.numbers(24, n);
    zone::layer::calc_state_of_charge(salts, card.reference, stored, &zones[..n])
}

pub fn state_of_charge(words: Words<'_>) -> bool {
    let card = words.card();
    if card.layers > 64 {
        return false;
    }
    let n = card.layers as usize;
    let r = level(words, card);
    words.has(n + 26) & words.word_is(23, n as u64) & words.option_is(n + 24, r)
}

pub fn energy_required(words: Words<'_>) -> bool {
    let zone = words.number(5);
    let r = zone::layer::calculate_zone_energy_required(salt(words, 0), zone, words.number(6));
    words.ends_with(7, r.0)
}

pub fn new_temperature(words: Words<'_>) -> bool {
    let zone = words.number(5);
    let energy = Kilojoules(words.number(6));
    let r = zone_update::calculate_new_zone_temperature(salt(words, 0), zone, energy, None);
    words.ends_with(7, r.temperature)
}

pub fn lowest(words: Words<'_>) -> bool {
    let zone = words.number(5);
    let lowest = Some(words.number(6));
    let energy = Kilojoules(words.number(7));
    let r = zone_update::calculate_new_zone_temperature(salt(words, 0), zone, energy, lowest);
    words.has(11) & words.numbers_are(8, &[r.temperature, r.taken.0, r.rest.0])
}

pub fn simultaneous(words: Words<'_>) -> bool {
    let zone = words.number(5);
    let target = words.number(6);
    let left = Kilojoules(words.number(7));
    let heat = Kilojoules(words.number(8));
    let charged = KilowattHours(words.number(9));
    let own = salt(words, 0);
    let r = zone_charging::process_zone_simultaneous_charging(
        own, zone, target, left, heat, charged,
    );
    let outputs = words.numbers_are(10, &[r.left.0, r.charged.0, r.heat.0]);
    words.has(13) & outputs
}
