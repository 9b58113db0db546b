// One substep in any mode, by value and with each zone's energy: document 01, module 5, as the Rust hands it out.
#![tactic(auto)]

ghost use Rattle.std.specs.Prelude.{◌≡◌, ◌≤◌, replicate};
ghost use Rattle.floats.specs.Constants.{zero};
ghost use Rattle.zone.specs.LentSalts.{lent_salt};
ghost use Rattle.substep.specs.Substep.{substep_with, process_heat_battery_zones};

use card::{Card, HeatBatteryPcm};
use substep::{Outcome, Substep, SubstepInput};
use substep_loops::Energies;
use zone::Kilojoules;
use zone::lent::LentSalts;

// Each zone's energy: arrays here and below, as the definitions' lists have 64 places.
#[derive(Clone, Copy)]
struct Kept {
    energies: [f64; 64],
}

impl Energies for Kept {
    ghost are = { λ s l. s.energies ≡ l };

    fn add(&mut self, j: usize, energy: Kilojoules) {
        self.energies[j] = self.energies[j] + energy.0;
    }
}

#[tactic(auto, unfolding(substep::specs::Substep::substep_with))]
fn with_arrays(outcome: Outcome, zones: [f64; 64], energies: [f64; 64]) -> Substep
    ensures { result ≡ substep_with outcome zones energies }
{
    let Outcome {
        outlet,
        delivered,
        charged,
        fault,
        logarithms,
    } = outcome;
    Substep {
        zones,
        energies,
        outlet,
        delivered,
        charged,
        fault,
        logarithms,
    }
}

// What a substep in place hands out, with its zones and zeros for the energies.
fn bare(outcome: Outcome, zones: [f64; 64]) -> Substep
    ensures { result ≡ substep_with outcome zones (replicate 64 zero) }
{
    let energies = [0.0; 64];
    with_arrays(outcome, zones, energies)
}

// In any mode, by value and with each zone's energy.
pub fn process_heat_battery_zones<const APART: usize>(
    card: Card,
    pcm: HeatBatteryPcm,
    salts: LentSalts<'_, APART>,
    input: SubstepInput,
    zones: [f64; 64],
) -> Substep
    requires { card.layers ≤ salts.layers }
    ensures { result ≡ process_heat_battery_zones card pcm (lent_salt salts.entry) input zones }
{
    let mode = input.mode;
    let transfer = substep::zone_transfer(mode, card, input);
    let share = transfer.value;
    let Some(u) = share else {
        let o = substep::without_logarithm();
        return bare(o, zones);
    };
    let common = substep::common_of(mode, card, pcm, input, u);
    let mut after = zones;
    let mut kept = Kept {
        energies: [0.0; 64],
    };
    let o = substep_loops::with_water::zones_in_place(
        card,
        common,
        salts,
        input,
        transfer.logarithms,
        None,
        &mut kept,
        &mut after,
    );
    with_arrays(o, after, kept.energies)
}
