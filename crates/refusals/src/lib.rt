// Document 01's refusals and document 02's, with their numbers. The C header, the Rust crate and the command have the same names.
#![tactic(auto)]

ghost use Rattle.std.specs.Prelude.{◌≡◌};
ghost use Rattle.refusals.specs.Number.{number as number_of, refused_number};

#[derive(Clone, Copy, Debug, PartialEq, Eq, Hash)]
pub enum Refusal {
    // of a card
    CardOutOfRange = 1,
    LowerAboveUpper = 2,
    MaxTooLow = 3,
    NothingToStore = 4,
    BadServices = 61,
    // of a call, without a line
    BadCall = 10,
    NoRoom = 11,
    // of a call, as a line
    NoReturn = 20,
    NoService = 21,
    OverBudget = 22,
    NotFinite = 23,
    NoLogarithm = 24,
    OverFull = 25,
    // of a sheet; of any entry that is given the version
    NoVersion = 40,
    BadCard = 41,
    BadLine = 42,
    Disagrees = 43,
    TooLong = 44,
}

// The number of what is not refused.
pub const ANSWERED: u8 = 0;

impl Refusal {
    // A method and no `From`: `number` is what definitions and contracts name.
    pub fn number(self) -> u8
        ensures { result ≡ number_of self }
    {
        self as u8
    }
}

// The number of what may be refused: 0 where it is not.
pub fn refused_number(outcome: Result<(), Refusal>) -> u8
    ensures { result ≡ refused_number outcome }
{
    match outcome {
        Ok(()) => ANSWERED,
        Err(refusal) => refusal.number(),
    }
}
