// What stands behind a card's fields, wherever it lies: its services and its flag; refusal 1's test of the flag.
ghost use Rattle.std.specs.Prelude.{◌≡◌, ◌<◌, ◌≤◌, ℕ, length, get_or};
ghost use Rattle.card.specs.Extension.{flag_ok, has_floor, extension_ok};

use crate::services::Service;

// What has an extension. One with too many services for a card may have fewer that can be read, so that functions that read one ask for its length: a
// type for a short one would stand in their clauses in its place.
pub trait Extended {
    ghost use Rattle.card.specs.Extension.{Extension};

    // all of it, by the version
    ghost extension: { Self → Extension };

    // as many of the services can be read
    ghost room: { Self → ℕ };

    // how many services there are; none before version 3
    fn count(&self) -> usize
        ensures { result ≡ length (extension self.now).services };

    fn service(&self, k: usize) -> Service
        requires { (k < length (extension self.now).services) × (k < room self.now) }
        ensures { result ≡ get_or (extension self.now).services k result };

    // the flag; 0 before version 4
    fn floor(&self) -> u8
        ensures { result ≡ (extension self.now).floor };

    // as many as a card may list can all be read
    ghost few_fit: { (extended : Self) → length (extension extended).services ≤ 32 → length (extension extended).services ≤ room extended };
}

// The flag's values: it sets a floor, or none, as on every card before version 4.
pub const FLOOR_SET: u8 = 1;

pub const NO_FLOOR: u8 = 0;

// Whether the flag is one of the two: refusal 1's test of it.
#[tactic(auto, unfolding(crate::specs::Extension::flag_ok))]
pub fn flag_ok(floor: u8) -> bool
    ensures { result ≡ flag_ok floor }
{
    floor <= FLOOR_SET
}

// Whether it sets a floor for standing losses.
#[tactic(auto, unfolding(crate::specs::Extension::has_floor))]
pub fn has_floor<E: Extended>(extended: &E) -> bool
    ensures { result ≡ has_floor (E.extension extended.now) }
{
    extended.floor() == FLOOR_SET
}

// Whether flag and services are accepted, for calls on the caller's own record.
#[tactic(auto, unfolding(crate::specs::Extension::extension_ok))]
pub fn extension_ok<E: Extended>(extended: &E) -> bool
    ensures { result ≡ extension_ok (E.extension extended.now) }
{
    flag_ok(extended.floor()) & crate::services::services_ok(extended)
}
