// The kinds of calls, and the byte of each, which is a call's first.
ghost use Rattle.std.specs.Prelude.{◌≡◌};
ghost use Rattle.sheet_calls.specs.Kinds.{kind_number, Decodes};

#[derive(Clone, Copy, Debug, PartialEq, Eq)]
pub enum Kind {
    DemandEnergy = 1,
    ChargeElectric = 2,
    ChargeHydronic = 3,
    HeatLoss = 4,
    CloseTimestep = 5,
    ReadStateOfCharge = 6,
    ChargeEnergyDemand = 7,
}

// A byte that is no kind: specs/Kinds.antt's NoKind says what it gives, a length of 0, the class 0 and no call.
#[derive(Clone, Copy, Debug, PartialEq, Eq)]
pub struct UnknownKind(pub u8);

impl From<Kind> for u8 {
    ghost from_gives = { λ kind byte. byte ≡ kind_number kind };

    fn from(kind: Kind) -> u8 {
        kind as u8
    }
}

impl TryFrom<u8> for Kind {
    type Error = UnknownKind;

    ghost try_from_gives = { Decodes };

    fn try_from(byte: u8) -> Result<Kind, UnknownKind> {
        match byte {
            1 => Ok(Kind::DemandEnergy),
            2 => Ok(Kind::ChargeElectric),
            3 => Ok(Kind::ChargeHydronic),
            4 => Ok(Kind::HeatLoss),
            5 => Ok(Kind::CloseTimestep),
            6 => Ok(Kind::ReadStateOfCharge),
            7 => Ok(Kind::ChargeEnergyDemand),
            _ => Err(UnknownKind(byte)),
        }
    }
}
