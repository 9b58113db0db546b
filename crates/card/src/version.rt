// The versions of a sheet. A number and no enum: C and a sheet's first byte hand in any, and one that isn't known is 40.
// A function for each rule and not one test with a constant: each rule is a definition of its own, which the contracts above cite.
ghost use Rattle.std.specs.Prelude.{◌≡◌};
ghost use Rattle.card.specs.Version.{known_version, shows_hydronic_time, lists_services, sets_floor};

pub const OLDEST_VERSION: u8 = 1;

pub const NEWEST_VERSION: u8 = 4;

// The first whose hydronic lines show their time.
const HYDRONIC_TIME: u8 = 2;

// The first whose cards list services.
const SERVICES: u8 = 3;

// The first whose cards have the flag of a floor.
const FLOOR: u8 = 4;

// Whether a sheet may begin with this byte: refusal 40's test.
#[tactic(auto, unfolding(crate::specs::Version::known_version))]
pub fn known_version(version: u8) -> bool
    ensures { result ≡ known_version version }
{
    (OLDEST_VERSION <= version) & (version <= NEWEST_VERSION)
}

// Whether an answered hydronic line shows its time.
#[tactic(auto, unfolding(crate::specs::Version::shows_hydronic_time))]
pub fn shows_hydronic_time(version: u8) -> bool
    ensures { result ≡ shows_hydronic_time version }
{
    HYDRONIC_TIME <= version
}

// Whether a card lists services, and a demand's type has two bytes.
#[tactic(auto, unfolding(crate::specs::Version::lists_services))]
pub fn lists_services(version: u8) -> bool
    ensures { result ≡ lists_services version }
{
    SERVICES <= version
}

// Whether a card has the flag of a floor behind its services.
#[tactic(auto, unfolding(crate::specs::Version::sets_floor))]
pub fn sets_floor(version: u8) -> bool
    ensures { result ≡ sets_floor version }
{
    FLOOR <= version
}
