// What VECTORS.md calls the ids from 1 to 8, from 20 to 32, 40, 41, 50 and 51.
ghost use Rattle.vectors_files.specs.Ids.{Decodes};

use std::fmt;

#[derive(Clone, Copy, Debug)]
pub enum Id {
    Finite,
    NearlyEqual,
    MaxZero,
    Min,
    Square,
    Sum2,
    Ln,
    Truncate,
    LayerEnergy,
    SocToTemp,
    StateOfCharge,
    EnergyRequired,
    NewTemperature,
    Simultaneous,
    Viscosity,
    Reynolds,
    HeatTransfer,
    Outlet,
    ZoneProperties,
    Card,
    Lowest,
    Substep,
    ChargeEnergyDemand,
    // the start of a list, and a call of one
    Start,
    Call,
}

// A number that is no id.
#[derive(Clone, Copy, Debug)]
pub struct UnknownId(pub u64);

impl TryFrom<u64> for Id {
    type Error = UnknownId;

    ghost try_from_gives = { Decodes };

    fn try_from(number: u64) -> Result<Id, UnknownId> {
        match number {
            1 => Ok(Id::Finite),
            2 => Ok(Id::NearlyEqual),
            3 => Ok(Id::MaxZero),
            4 => Ok(Id::Min),
            5 => Ok(Id::Square),
            6 => Ok(Id::Sum2),
            7 => Ok(Id::Ln),
            8 => Ok(Id::Truncate),
            20 => Ok(Id::LayerEnergy),
            21 => Ok(Id::SocToTemp),
            22 => Ok(Id::StateOfCharge),
            23 => Ok(Id::EnergyRequired),
            24 => Ok(Id::NewTemperature),
            25 => Ok(Id::Simultaneous),
            26 => Ok(Id::Viscosity),
            27 => Ok(Id::Reynolds),
            28 => Ok(Id::HeatTransfer),
            29 => Ok(Id::Outlet),
            30 => Ok(Id::ZoneProperties),
            31 => Ok(Id::Card),
            32 => Ok(Id::Lowest),
            40 => Ok(Id::Substep),
            41 => Ok(Id::ChargeEnergyDemand),
            50 => Ok(Id::Start),
            51 => Ok(Id::Call),
            _ => Err(UnknownId(number)),
        }
    }
}

impl fmt::Display for Id {
    fn fmt<W: fmt::Write>(&self, f: &mut fmt::Formatter<W>) -> fmt::Result {
        f.write_str(match self {
            Id::Finite => "finite",
            Id::NearlyEqual => "nearly_equal",
            Id::MaxZero => "max_zero",
            Id::Min => "min",
            Id::Square => "square",
            Id::Sum2 => "sum2",
            Id::Ln => "ln",
            Id::Truncate => "truncate",
            Id::LayerEnergy => "layer_energy",
            Id::SocToTemp => "soc_to_temp",
            Id::StateOfCharge => "state_of_charge",
            Id::EnergyRequired => "energy_required",
            Id::NewTemperature => "new_temperature",
            Id::Simultaneous => "simultaneous",
            Id::Viscosity => "viscosity",
            Id::Reynolds => "reynolds",
            Id::HeatTransfer => "heat_transfer",
            Id::Outlet => "outlet",
            Id::ZoneProperties => "zone_properties",
            Id::Card => "card",
            Id::Lowest => "lowest",
            Id::Substep => "substep",
            Id::ChargeEnergyDemand => "charge_energy_demand",
            Id::Start | Id::Call => "lists",
        })
    }
}
