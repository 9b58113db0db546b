// The substep with water: document 01, module 5.
ghost use Rattle.std.specs.Prelude.{IfSome, replicate, ◌≡◌, true, ℕ, ◌≤◌, ◌<◌};
ghost use Rattle.std.specs.Float.Ieee.{lt};
ghost use Rattle.floats.specs.Constants.{zero};
ghost use Rattle.zone.specs.LentSalts.{lent_salt};
ghost use Rattle.substep.specs.Substep.{target_at, zones_after, target_of, progress_from, charger_heat, InPlace, substep_from, process_heat_battery_zones};

use crate::{Energies, Unkept, ZoneStepping};
use card::{Card, HeatBatteryPcm};
use substep::{Common, Outcome, SubstepInput, ZoneStep};
use zone::lent::LentSalts;
use zone::{Kilojoules, KilowattHours, Salt};
use zone_water::Mode;

// A zone's part in any mode. `target` is every zone's where the charger has heat; without one each zone's is worked out where it is asked.
#[derive(Clone, Copy)]
struct WithWater {
    common: Common,
    target: Option<f64>,
}

impl ZoneStepping for WithWater {
    ghost common = { λ s. s.common };

    ghost fits = { λ s salt left. lt left.0 zero ≡ true → IfSome s.target (λ t. t ≡ target_at s.common salt) };

    fn common(self) -> Common {
        self.common
    }

    fn zone_step(
        self,
        salt: Salt,
        zone: f64,
        inlet: f64,
        left: Kilojoules,
        charged: KilowattHours,
    ) -> ZoneStep {
        substep::zone_step(self.common, salt, self.target, zone, inlet, left, charged)
    }
}

// All zones in the mode's order, where they lie, in any mode. Places above the zones are neither read nor written.
// `taken` are the logarithms of the heat transfer; each zone's own are added.
// `target` is every zone's where the charger has heat; without one each zone's is worked out where it is asked.
#[tactic(auto, unfolding(substep::specs::Substep::progress_from), using(substep::proofs::SubstepLaws::left_at_first, substep::proofs::SubstepLaws::index_below))]
pub fn zones_in_place<E: Energies, const APART: usize>(
    card: Card,
    common: Common,
    salts: LentSalts<'_, APART>,
    input: SubstepInput,
    taken: u32,
    target: Option<f64>,
    energies: &mut E,
    zones: &mut [f64; 64],
) -> Outcome
    requires { (card.layers ≤ salts.layers) × (lt (charger_heat input).0 zero ≡ true → IfSome target (λ t. (j : ℕ) → j < card.layers → t ≡ target_at common (lent_salt salts j))) }
    ensures { InPlace (substep_from card taken (zones_after common (lent_salt salts.entry) card.layers card.layers (progress_from input zones.old))) result zones.new × (E.are energies.old (replicate 64 zero) → E.are energies.new (zones_after common (lent_salt salts.entry) card.layers card.layers (progress_from input zones.old)).energies) }
{
    let stepping = WithWater { common, target };
    crate::over_zones(card, stepping, salts, input, taken, energies, zones)
}

// A substep with water in place, without its energies: the engine's. The mode is written out, so that the loop is compiled for it alone;
// `charging_alone` and `losses` have the others. `target` is the temperature of the input's level in every zone, where the
// charger has heat.
pub fn process_in_place<const APART: usize>(
    card: Card,
    pcm: HeatBatteryPcm,
    salts: LentSalts<'_, APART>,
    input: SubstepInput,
    target: f64,
    zones: &mut [f64; 64],
) -> Outcome
    requires { (card.layers ≤ salts.layers) × ((input.mode ≡ Mode.Normal) × (lt (charger_heat input).0 zero ≡ true → (j : ℕ) → j < card.layers → target ≡ target_of card (lent_salt salts j) input.target)) }
    ensures { InPlace (process_heat_battery_zones card pcm (lent_salt salts.entry) input zones.old) result zones.new }
{
    let transfer = substep::zone_transfer(Mode::Normal, card, input);
    let share = transfer.value;
    let Some(u) = share else {
        return substep::without_logarithm();
    };
    let common = substep::common_of(Mode::Normal, card, pcm, input, u);
    zones_in_place(
        card,
        common,
        salts,
        input,
        transfer.logarithms,
        Some(target),
        &mut Unkept,
        zones,
    )
}
