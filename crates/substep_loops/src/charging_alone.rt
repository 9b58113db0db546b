// Substeps of charging alone: a zone is asked less than with water, and the call that runs one such substep has the loop compiled in place.
ghost use Rattle.std.specs.Prelude.{IfSome, ◌≡◌, ◌≤◌};
ghost use Rattle.zone_water.specs.declared.Mode.TheVariants.{OnlyCharging};
ghost use Rattle.zone.specs.LentSalts.{lent_salt};
ghost use Rattle.substep.specs.Substep.{target_at, InPlace, process_heat_battery_zones};

use crate::{Unkept, ZoneStepping};
use card::{Card, HeatBatteryPcm};
use substep::{Common, Outcome, SubstepInput, ZoneStep};
use zone::lent::LentSalts;
use zone::{Kilojoules, KilowattHours, Salt};
use zone_water::Mode;

// A zone's part of charging alone: nothing, where the charger's heat is used up. Without a `target` for every zone each zone's is worked out. The fields
// of `WithWater`, and another step with another law.
#[derive(Clone, Copy)]
struct ChargingAlone {
    common: Common,
    target: Option<f64>,
}

impl ZoneStepping for ChargingAlone {
    ghost common = { λ s. s.common };

    ghost fits = { λ s salt left. (s.common.mode ≡ OnlyCharging) × IfSome s.target (λ t. t ≡ target_at s.common salt) };

    fn common(self) -> Common {
        self.common
    }

    #[tactic(auto, using(crate::proofs::Steppings::charging_on, crate::proofs::Steppings::charging_off))]
    fn zone_step(
        self,
        salt: Salt,
        zone: f64,
        inlet: f64,
        left: Kilojoules,
        charged: KilowattHours,
    ) -> ZoneStep {
        if left.0 < 0.0 {
            let own = substep::zone_target(self.common, salt, self.target);
            let c = zone_charging::charge_zone_alone(salt, zone, own, left, charged);
            let heat = c.heat;
            let update = zone_update::calculate_new_zone_temperature(salt, zone, heat, None);
            let left = c.left;
            let charged = c.charged;
            return ZoneStep {
                temperature: update.temperature,
                energy: Kilojoules(0.0),
                outlet: 0.0,
                left,
                charged,
                logarithms: 0,
            };
        }
        ZoneStep {
            temperature: zone,
            energy: Kilojoules(0.0),
            outlet: 0.0,
            left,
            charged,
            logarithms: 0,
        }
    }
}

// A substep of charging alone, in place.
pub fn charge_in_place<const APART: usize>(
    card: Card,
    pcm: HeatBatteryPcm,
    salts: LentSalts<'_, APART>,
    input: SubstepInput,
    zones: &mut [f64; 64],
) -> Outcome
    requires { (card.layers ≤ salts.layers) × (input.mode ≡ Mode.OnlyCharging) }
    ensures { InPlace (process_heat_battery_zones card pcm (lent_salt salts.entry) input zones.old) result zones.new }
{
    let common = substep::common_of(Mode::OnlyCharging, card, pcm, input, 0.0);
    let first = substep::target_of(card, salts, input.target);
    let target = (salts.stride() == 0).then_some(first);
    let stepping = ChargingAlone { common, target };
    crate::over_zones(card, stepping, salts, input, 0, &mut Unkept, zones)
}
