// Substeps of losses, compiled alone as those of charging alone.
ghost use Rattle.std.specs.Prelude.{◌≡◌, false, ◌≤◌, Float, None, Some};
ghost use Rattle.std.specs.Float.Ieee.{lt};
ghost use Rattle.floats.specs.Constants.{zero};
ghost use Rattle.zone.specs.LentSalts.{lent_salt};
ghost use Rattle.substep.specs.Substep.{zone_step, charger_heat, InPlace, process_heat_battery_zones};
ghost use Rattle.substep_loops.specs.Found.{Lost};

use crate::{Unkept, ZoneStepping};
use card::{Card, HeatBatteryPcm};
use substep::{Common, Outcome, SubstepInput, ZoneStep};
use zone::lent::LentSalts;
use zone::{Kilojoules, KilowattHours, Salt};
use zone_water::Mode;

// A zone's loss. `share` is a layer's part of the heat that is lost at the rated difference, `lowest` the mode's temperature.
#[inline(always)]
#[tactic(auto, using(crate::proofs::Steppings::loss_of))]
fn loss_step(
    common: Common,
    share: Kilojoules,
    lowest: Option<f64>,
    salt: Salt,
    zone: f64,
    left: Kilojoules,
    charged: KilowattHours,
) -> ZoneStep
    requires { Lost common share lowest left }
    ensures { (inlet : Float) → result ≡ zone_step common salt zone inlet left charged }
{
    let shared = common.shared;
    let energy = floats::max_zero(share.0 * (zone - shared.inlet) / shared.rated);
    let loss = Kilojoules(energy);
    let update = zone_update::calculate_new_zone_temperature(salt, zone, loss, lowest);
    ZoneStep {
        temperature: update.temperature,
        energy: update.taken,
        outlet: 0.0,
        left,
        charged,
        logarithms: 0,
    }
}

// Losses without a lowest temperature, and with one: two types, so that the loop without is compiled without a test for it.
#[derive(Clone, Copy)]
struct Losing {
    common: Common,
    share: Kilojoules,
}

impl ZoneStepping for Losing {
    ghost common = { λ s. s.common };

    ghost fits = { λ s salt left. Lost s.common s.share None left };

    fn common(self) -> Common {
        self.common
    }

    fn zone_step(
        self,
        salt: Salt,
        zone: f64,
        inlet: f64,
        left: Kilojoules,
        charged: KilowattHours,
    ) -> ZoneStep {
        loss_step(self.common, self.share, None, salt, zone, left, charged)
    }
}

#[derive(Clone, Copy)]
struct LosingTo {
    common: Common,
    share: Kilojoules,
    lowest: f64,
}

impl ZoneStepping for LosingTo {
    ghost common = { λ s. s.common };

    ghost fits = { λ s salt left. Lost s.common s.share (Some s.lowest) left };

    fn common(self) -> Common {
        self.common
    }

    fn zone_step(
        self,
        salt: Salt,
        zone: f64,
        inlet: f64,
        left: Kilojoules,
        charged: KilowattHours,
    ) -> ZoneStep {
        loss_step(
            self.common,
            self.share,
            Some(self.lowest),
            salt,
            zone,
            left,
            charged,
        )
    }
}

// A substep of losses, in place; no loss has heat of a charger. That is a clause here, of a run of losses and of the step: an input of losses as a
// type of its own would be copied for this one fact.
#[tactic(auto, using(substep::proofs::SubstepLaws::passed, substep::proofs::SubstepLaws::without_logarithm_loss, substep::proofs::SubstepLaws::none_in_a_loss, crate::proofs::Steppings::heat_stays))]
pub fn lose_in_place<const APART: usize>(
    card: Card,
    pcm: HeatBatteryPcm,
    salts: LentSalts<'_, APART>,
    lowest: Option<f64>,
    input: SubstepInput,
    zones: &mut [f64; 64],
) -> Outcome
    requires { (card.layers ≤ salts.layers) × ((input.mode ≡ Mode.Losses lowest) × (lt (charger_heat input).0 zero ≡ false)) }
    ensures { InPlace (process_heat_battery_zones card pcm (lent_salt salts.entry) input zones.old) result zones.new }
{
    let common = substep::common_of(Mode::Losses(lowest), card, pcm, input, 0.0);
    let heat = substep::charger_heat(input);
    let share = Kilojoules(heat.0 / (common.shared.layers as f64));
    match lowest {
        None => {
            let stepping = Losing { common, share };
            crate::over_zones(card, stepping, salts, input, 0, &mut Unkept, zones)
        }
        Some(lowest) => {
            let stepping = LosingTo {
                common,
                share,
                lowest,
            };
            crate::over_zones(card, stepping, salts, input, 0, &mut Unkept, zones)
        }
    }
}
