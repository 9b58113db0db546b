// Document 01, module 5: a zone's part of a substep. The substep over all zones is a definition here; `substep_loops` has its loop.
#![tactic(auto)]

ghost use Rattle.std.specs.Prelude.{IfSome, ◌≡◌, true, cond, ◌&&◌, List, ◌≤◌, ◌<◌, length, Float, Some, None};
ghost use Rattle.std.specs.Float.Ieee.{lt};
ghost use Rattle.floats.specs.Constants.{zero};
ghost use Rattle.floats.specs.Standins.{finite64};
ghost use Rattle.zone.specs.LentSalts.{lent_salt};
ghost use Rattle.substep.specs.Substep.{zone_index, zone_charge, target_at, lowest_of, counted_energy, zone_step, per_layer, shared_transfer, target_of, common_of, charger_heat, without_logarithm, outcome_of};

use card::{Card, HeatBatteryPcm};
use zone::lent::LentSalts;
use zone::{Kilojoules, KilowattHours, Salt};
use zone_charging::Charged;
use zone_water::{Mode, Shared, Transfer};

// What a substep is asked, in the Rust's words.
#[derive(Clone, Copy)]
pub struct SubstepInput {
    pub mode: Mode,
    // °C entering the battery; of the surroundings in the losses mode
    pub inlet: f64,
    // length of the substep
    pub seconds: f64,
    pub reynold: f64,
    // l/min
    pub flow: f64,
    // kW of the charger; negative for losses
    pub power: f64,
    // charge level, 0 to 1
    pub target: f64,
    pub a: f64,
    pub b: f64,
}

// What stays the same over the zones.
#[derive(Clone, Copy)]
pub struct Common {
    pub mode: Mode,
    pub shared: Shared,
    // °C
    pub reference: f64,
    pub max: f64,
    // charge level, 0 to 1
    pub level: f64,
}

// What a substep hands out besides its arrays.
#[derive(Clone, Copy)]
pub struct Outcome {
    pub outlet: f64,
    // the compensated sum of the energies
    pub delivered: Kilojoules,
    pub charged: KilowattHours,
    pub fault: Option<Fault>,
    // how many the substep took
    pub logarithms: u32,
}

// One zone's part.
#[derive(Clone, Copy)]
pub struct ZoneStep {
    pub temperature: f64,
    pub energy: Kilojoules,
    pub outlet: f64,
    pub left: Kilojoules,
    pub charged: KilowattHours,
    // taken for this zone alone
    pub logarithms: u32,
}

// Why a substep ends its call: refusals 23 and 24.
#[derive(Clone, Copy)]
pub enum Fault {
    Logarithm,
    NotFinite,
}

// What a substep hands out, by value, as the definitions give it. `Outcome`'s fields one by one: the definitions cite them.
#[derive(Clone, Copy)]
pub struct Substep {
    pub zones: [f64; 64],
    pub energies: [f64; 64],
    pub outlet: f64,
    // the compensated sum of the energies
    pub delivered: Kilojoules,
    pub charged: KilowattHours,
    pub fault: Option<Fault>,
    // how many the substep took
    pub logarithms: u32,
}

// The k-th of n zones in the mode's order.
#[tactic(auto, unfolding(crate::specs::Substep::zone_index))]
pub fn zone_index(mode: Mode, n: usize, k: usize) -> usize
    requires { k < n }
    ensures value { result ≡ zone_index mode n k }
    ensures upper_bound { result < n }
{
    match mode {
        Mode::OnlyCharging => n - k - 1,
        Mode::Losses(_) | Mode::Normal => k,
    }
}

// Here and below `target` goes beside `common`: it is of the zone's salt, which no field of the struct knows.
#[tactic(auto, unfolding(crate::specs::Substep::zone_charge))]
fn zone_charge(
    common: Common,
    salt: Salt,
    target: Option<f64>,
    zone: f64,
    left: Kilojoules,
    energy: Kilojoules,
    charged: KilowattHours,
) -> Charged
    requires { lt left.0 zero ≡ true → IfSome target (λ t. t ≡ target_at common salt) }
    ensures { result ≡ zone_charge salt zone (target_at common salt) left energy charged }
{
    if left.0 < 0.0 {
        return zone_charging::process_zone_simultaneous_charging(
            salt,
            zone,
            zone_target(common, salt, target),
            left,
            energy,
            charged,
        );
    }
    Charged {
        left,
        charged,
        heat: energy,
    }
}

// The temperature of the charge level by a zone's salt: `target` where the zones are alike in it.
pub fn zone_target(common: Common, salt: Salt, target: Option<f64>) -> f64
    requires { IfSome target (λ t. t ≡ target_at common salt) }
    ensures { result ≡ target_at common salt }
{
    match target {
        Some(shared) => shared,
        None => zone::layer::soc_to_temp(salt, common.reference, common.max, common.level),
    }
}

// The lowest temperature that the mode leaves a zone at.
#[tactic(auto, unfolding(crate::specs::Substep::lowest_of))]
fn lowest_of(mode: Mode) -> Option<f64>
    ensures { result ≡ lowest_of mode }
{
    match mode {
        Mode::Losses(lowest) => lowest,
        Mode::OnlyCharging | Mode::Normal => None,
    }
}

// What is counted of a zone's energy, of which so much was taken.
#[tactic(auto, unfolding(crate::specs::Substep::counted_energy))]
fn counted_energy(mode: Mode, energy: Kilojoules, taken: Kilojoules) -> Kilojoules
    ensures { result ≡ counted_energy mode energy taken }
{
    match mode {
        Mode::Losses(_) => taken,
        Mode::OnlyCharging | Mode::Normal => energy,
    }
}

// What one zone hands to the next, water, heat and charged energy, goes as three numbers, as in the definitions.
#[tactic(auto, unfolding(crate::specs::Substep::zone_step))]
pub fn zone_step(
    common: Common,
    salt: Salt,
    target: Option<f64>,
    zone: f64,
    inlet: f64,
    left: Kilojoules,
    charged: KilowattHours,
) -> ZoneStep
    requires { lt left.0 zero ≡ true → IfSome target (λ t. t ≡ target_at common salt) }
    ensures { result ≡ zone_step common salt zone inlet left charged }
{
    let mode = common.mode;
    let p = zone_water::get_zone_properties(mode, common.shared, zone, inlet, left);
    let c = zone_charge(common, salt, target, zone, left, p.energy, charged);
    let lowest = lowest_of(mode);
    let update = zone_update::calculate_new_zone_temperature(salt, zone, c.heat, lowest);
    ZoneStep {
        temperature: update.temperature,
        energy: counted_energy(mode, p.energy, update.taken),
        outlet: p.outlet,
        left: c.left,
        charged: c.charged,
        logarithms: p.logarithms,
    }
}

// A zone's share of the heat transfer, worked out once for all zones; a logarithm is taken in the normal mode alone.
#[tactic(auto, unfolding(crate::specs::Substep::zone_transfer, crate::specs::Substep::logarithms_of, crate::specs::Substep::shared_transfer, zone_water::specs::Water::counted_transfer))]
pub fn zone_transfer(mode: Mode, card: Card, input: SubstepInput) -> Transfer
    ensures { result ≡ shared_transfer mode card input }
{
    match mode {
        Mode::OnlyCharging | Mode::Losses(_) => Transfer {
            value: Some(0.0),
            logarithms: 0,
        },
        Mode::Normal => {
            let whole = zone_water::calculate_heat_transfer_kw_per_k(
                input.a,
                input.b,
                input.flow,
                input.reynold,
            );
            Transfer {
                value: per_layer(card, whole.value),
                logarithms: whole.logarithms,
            }
        }
    }
}

#[tactic(auto, unfolding(crate::specs::Substep::per_layer))]
fn per_layer(card: Card, whole: Option<f64>) -> Option<f64>
    ensures { result ≡ per_layer card whole }
{
    Some(whole? / (card.layers as f64))
}

// The temperature of a charge level by the first zone's salt: worked out once for the zones of one salt.
pub fn target_of<const APART: usize>(card: Card, salts: LentSalts<'_, APART>, level: f64) -> f64
    ensures { result ≡ target_of card (lent_salt salts.entry 0) level }
{
    zone::layer::soc_to_temp(salts.zone(0), card.reference, card.max, level)
}

// `mode` is the input's.
#[tactic(auto, unfolding(crate::specs::Substep::common_of))]
pub fn common_of(
    mode: Mode,
    card: Card,
    pcm: HeatBatteryPcm,
    input: SubstepInput,
    transfer: f64,
) -> Common
    requires { mode ≡ input.mode }
    ensures value { result ≡ common_of card pcm input transfer }
    ensures its_mode { result.mode ≡ mode }
{
    Common {
        mode,
        shared: Shared {
            layers: card.layers,
            inlet: input.inlet,
            rated: pcm.rated,
            transfer,
            mass: zone_water::mass_flow(input.flow),
            seconds: input.seconds,
        },
        reference: card.reference,
        max: card.max,
        level: input.target,
    }
}

// The charger's heat over the substep, at first: kilowatts times hours.
#[tactic(auto, unfolding(crate::specs::Substep::charger_heat))]
pub fn charger_heat(input: SubstepInput) -> Kilojoules
    ensures { result ≡ charger_heat input }
{
    KilowattHours(-input.power * input.seconds / floats::SECONDS_PER_HOUR).kilojoules()
}

pub fn progress_fault(
    zones: bool,
    outlet: f64,
    sum: Kilojoules,
    charged: KilowattHours,
) -> Option<Fault>
    ensures { result ≡ cond (zones && (finite64 outlet && (finite64 sum.0 && finite64 charged.0))) None (Some Fault.NotFinite) }
{
    let finite = zones
        & floats::is_finite(outlet)
        & floats::is_finite(sum.0)
        & floats::is_finite(charged.0);
    if finite { None } else { Some(Fault::NotFinite) }
}

// What a substep without its logarithm hands out.
#[tactic(auto, unfolding(crate::specs::Substep::outcome_of, crate::specs::Substep::without_logarithm))]
pub fn without_logarithm() -> Outcome
    ensures { (zones : List Float) → result ≡ outcome_of (without_logarithm zones) }
{
    Outcome {
        outlet: 0.0,
        delivered: Kilojoules(0.0),
        charged: KilowattHours(0.0),
        fault: Some(Fault::Logarithm),
        logarithms: 0,
    }
}
