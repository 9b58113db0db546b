// One zone: heat, salts and document 01's module 1, under the Rust's names. Modules 2 to 4 are the crates `zone_update`, `zone_charging` and `zone_water`.
#![tactic(auto)]

pub mod layer;
pub mod lent;

ghost use Rattle.std.specs.Prelude.{◌≡◌};
ghost use Rattle.zone.specs.Heat.{kilowatt_hours, kilojoules as kilojoules_of};

// Heat within a substep. Positive where a zone gives it up.
// No Add, Sub or Neg: sums are of f64 in the Rust's order, some with factors or the addend 0.0, and their definitions write the numbers too.
#[derive(Clone, Copy)]
pub struct Kilojoules(pub f64);

// Heat in an answer.
#[derive(Clone, Copy)]
pub struct KilowattHours(pub f64);

impl Kilojoules {
    #[tactic(auto, unfolding(crate::specs::Heat::kilowatt_hours))]
    pub fn kilowatt_hours(self) -> KilowattHours
        ensures { result ≡ kilowatt_hours self }
    {
        KilowattHours(self.0 / floats::KILOJOULES_PER_KILOWATT_HOUR)
    }
}

impl KilowattHours {
    #[tactic(auto, unfolding(crate::specs::Heat::kilojoules))]
    pub fn kilojoules(self) -> Kilojoules
        ensures { result ≡ kilojoules_of self }
    {
        Kilojoules(self.0 * floats::KILOJOULES_PER_KILOWATT_HOUR)
    }
}

// A salt: its melting range in °C, and a layer's capacity below, during and above it in kJ/K. A zone's temperature goes beside it and not in it: it lies in the
// battery's 64 places.
#[derive(Clone, Copy)]
pub struct Salt {
    pub lower: f64,
    pub upper: f64,
    pub below: f64,
    pub during: f64,
    pub above: f64,
}
