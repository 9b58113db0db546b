// The ids of rust/oracle/VECTORS.md but those of lists, each with the module that replays its records.
#![tactic(auto)]

mod cards;
mod exchanger;
mod levels;
mod standins;
mod substeps;
mod zones;

ghost use Rattle.std.specs.Prelude.{◌≡◌, ◌⊎◌, false};
ghost use Rattle.vectors_files.specs.Ids.{number_of};
ghost use Rattle.vectors_files.specs.declared.ids.Id.{Id};
ghost use Rattle.vectors_files.specs.declared.ids.Id.TheVariants.{Start, Call};

use vectors_files::ids::Id;
use vectors_words::Words;
use zone_water::Mode;

// Document 01's modes as VECTORS.md numbers them, losses without a lowest temperature. No `From`: a crate that has neither type cannot write it.
fn mode_of(word: u64) -> Mode {
    match word {
        0 => Mode::OnlyCharging,
        1 => Mode::Losses(None),
        _ => Mode::Normal,
    }
}

// Whether a record of this id and these words agrees; none of a list does. A match and no table of closures, which could leave an id out.
pub fn replay(id: Id, words: Words<'_>) -> bool
    ensures lists { ((id ≡ Start) ⊎ (id ≡ Call)) → result ≡ false }
{
    match id {
        Id::Finite => standins::finite(words),
        Id::NearlyEqual => standins::nearly_equal(words),
        Id::MaxZero => standins::max_zero(words),
        Id::Min => standins::min(words),
        Id::Square => standins::square(words),
        Id::Sum2 => standins::sum2(words),
        Id::Ln => standins::ln(words),
        Id::Truncate => standins::truncate(words),
        Id::LayerEnergy => zones::layer_energy(words),
        Id::SocToTemp => zones::soc_to_temp(words),
        Id::StateOfCharge => zones::state_of_charge(words),
        Id::EnergyRequired => zones::energy_required(words),
        Id::NewTemperature => zones::new_temperature(words),
        Id::Simultaneous => zones::simultaneous(words),
        Id::Viscosity => exchanger::viscosity(words),
        Id::Reynolds => exchanger::reynolds(words),
        Id::HeatTransfer => exchanger::heat_transfer(words),
        Id::Outlet => exchanger::outlet(words),
        Id::ZoneProperties => exchanger::zone_properties(words),
        Id::Card => cards::card(words),
        Id::Lowest => zones::lowest(words),
        Id::Substep => substeps::substep(words),
        Id::ChargeEnergyDemand => levels::charge_energy_demand(words),
        Id::Start | Id::Call => false,
    }
}

// The same of the number that a file has: none agrees whose number is no id, or only a list's.
pub fn replay_number(number: u64, words: Words<'_>) -> bool
    ensures lists { ((id : Id) → number_of id ≡ number → (id ≡ Start) ⊎ (id ≡ Call)) → result ≡ false }
{
    match Id::try_from(number) {
        Ok(id) => replay(id, words),
        Err(_) => false,
    }
}
