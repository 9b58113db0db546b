// Document 01, module 4: the water and its exchanger. Nothing may be fused, and factors stand in the Rust's order.
#![tactic(auto)]

ghost use Rattle.std.specs.Prelude.{◌≡◌};
ghost use Rattle.zone_water.specs.Water.{kinematic_viscosity, reynold_number, mass_flow, transfer_of, counted_transfer, outlet_temp, zone_properties};

use zone::Kilojoules;

// The Rust's HeatBatteryPcmOperationMode; losses go with the lowest temperature that they leave a zone at, if there is one.
#[derive(Clone, Copy)]
pub enum Mode {
    OnlyCharging,
    // °C
    Losses(Option<f64>),
    Normal,
}

// What all zones of a substep share.
#[derive(Clone, Copy)]
pub struct Shared {
    // their number
    pub layers: u8,
    // °C of the water, or of the surroundings in the losses mode
    pub inlet: f64,
    // temperature difference of the rated losses
    pub rated: f64,
    // kW/K of one zone
    pub transfer: f64,
    // kg/s
    pub mass: f64,
    // length of the substep
    pub seconds: f64,
}

#[derive(Clone, Copy)]
pub struct ZoneProperties {
    pub energy: Kilojoules,
    pub outlet: f64,
    // taken for this zone alone
    pub logarithms: u32,
}

// A heat transfer in kW/K, and the logarithms that were taken for it.
#[derive(Clone, Copy)]
pub struct Transfer {
    // refused where its logarithm is
    pub value: Option<f64>,
    pub logarithms: u32,
}

// kg/l
const DENSITY: f64 = 1.0;

// J/(kg K)
const SPECIFIC_HEAT_CAPACITY: f64 = 4184.0;

const JOULES_PER_KILOWATT_HOUR: f64 = 3600000.0;

// m²/s at the mean of inlet and outlet.
#[tactic(auto, unfolding(crate::specs::Water::kinematic_viscosity))]
pub fn calculate_water_kinematic_viscosity_m2_per_s(inlet: f64, outlet: f64) -> f64
    ensures { result ≡ kinematic_viscosity inlet outlet }
{
    let mean = (inlet + outlet) / 2.0;
    0.000000000145238 * floats::square(mean) - 0.0000000248238 * mean + 0.000001432
}

#[tactic(auto, unfolding(crate::specs::Water::reynold_number))]
pub fn calculate_reynold_number_at_1_l_per_min(viscosity: f64, velocity: f64, diameter: f64) -> f64
    ensures { result ≡ reynold_number viscosity velocity diameter }
{
    (velocity * diameter) / viscosity
}

// kg/s of a flow in l/min.
#[tactic(auto, unfolding(crate::specs::Water::mass_flow))]
pub fn mass_flow(flow: f64) -> f64
    ensures { result ≡ mass_flow flow }
{
    (flow / floats::SECONDS_PER_MINUTE) * DENSITY
}

// kW/K by a logarithm; refused where it is.
#[tactic(auto, unfolding(crate::specs::Water::transfer_of))]
fn transfer_of(a: f64, b: f64, log: Option<f64>) -> Option<f64>
    ensures { result ≡ transfer_of a b log }
{
    let l = log?;
    Some((a * l + b) / floats::WATTS_PER_KILOWATT)
}

// kW/K of the whole exchanger, with the one logarithm that is taken here.
#[tactic(auto, unfolding(crate::specs::Water::counted_transfer, crate::specs::Water::heat_transfer))]
pub fn calculate_heat_transfer_kw_per_k(a: f64, b: f64, flow: f64, reynold: f64) -> Transfer
    ensures { result ≡ counted_transfer a b flow reynold }
{
    let log = floats::bits::ln(reynold * flow);
    let value = transfer_of(a, b, log);
    Transfer {
        value,
        logarithms: 1,
    }
}

#[tactic(auto, using(floats::proofs::Doubling::doubled), unfolding(crate::specs::Water::outlet_temp))]
pub fn calculate_outlet_temp_c(transfer: f64, zone: f64, inlet: f64, mass: f64) -> f64
    ensures { result ≡ outlet_temp transfer zone inlet mass }
{
    let capacity = SPECIFIC_HEAT_CAPACITY / JOULES_PER_KILOWATT_HOUR;
    // The doubling by addition is the same to the bit; with it the compiler does not pair the two products, on which each zone waits.
    ((transfer + transfer) * zone - transfer * inlet
        + 2.0 * mass * capacity * floats::KILOJOULES_PER_KILOWATT_HOUR * inlet)
        / (2.0 * mass * capacity * floats::KILOJOULES_PER_KILOWATT_HOUR + transfer)
}

// The heat that a zone gives up, and its outlet. `inlet` is the water's temperature at the zone, `left` the charger's heat.
#[tactic(auto, unfolding(crate::specs::Water::zone_properties))]
pub fn get_zone_properties(
    mode: Mode,
    shared: Shared,
    zone: f64,
    inlet: f64,
    left: Kilojoules,
) -> ZoneProperties
    ensures { result ≡ zone_properties mode shared zone inlet left }
{
    match mode {
        Mode::OnlyCharging => ZoneProperties {
            energy: Kilojoules(0.0),
            outlet: 0.0,
            logarithms: 0,
        },
        Mode::Losses(_) => {
            let share = left.0 / (shared.layers as f64);
            let energy = floats::max_zero(share * (zone - shared.inlet) / shared.rated);
            ZoneProperties {
                energy: Kilojoules(energy),
                outlet: 0.0,
                logarithms: 0,
            }
        }
        Mode::Normal => {
            let outlet = calculate_outlet_temp_c(shared.transfer, zone, inlet, shared.mass);
            let capacity = SPECIFIC_HEAT_CAPACITY / JOULES_PER_KILOWATT_HOUR;
            ZoneProperties {
                energy: Kilojoules(
                    capacity
                        * floats::KILOJOULES_PER_KILOWATT_HOUR
                        * shared.mass
                        * (outlet - inlet)
                        * shared.seconds,
                ),
                outlet,
                logarithms: 0,
            }
        }
    }
}
