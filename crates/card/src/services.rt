// The services that a card lists, wherever they lie: refusal 61's test of them, and the class of a number.
ghost use Rattle.std.specs.Prelude.{◌≡◌, ◌≤◌, length};
ghost use Rattle.card.specs.Services.{service_ok, rising_from, services_ok, listed_class, class_of};

use crate::extension::Extended;

// The most services that a card may list.
pub const MOST_SERVICES: usize = 32;

// The last of document 01's types: a listed number is above it.
pub const LAST_TYPE: u16 = 3;

// A listed number, and its class: 1 regular, 2 space, 3 direct.
#[derive(Clone, Copy)]
pub struct Service {
    pub number: u16,
    // the card's byte, of which 61 refuses all but 1 to 3
    pub class: u8,
}

// Whether a number isn't under a least one, and its class is regular, space or direct.
#[tactic(auto, unfolding(crate::specs::Services::service_ok))]
pub fn service_ok(least: u32, service: Service) -> bool
    ensures { result ≡ service_ok least service }
{
    (least <= (service.number as u32)) & (1 <= service.class) & (service.class <= 3)
}

// Whether the services rise from 4 and have known classes.
#[tactic(auto, using(crate::proofs::Listed::rising_stops, crate::proofs::Listed::rising_further, crate::proofs::Listed::rising_done))]
fn services_rise<E: Extended>(extended: &E) -> bool
    requires { length (E.extension extended.now).services ≤ E.room extended.now }
    ensures { result ≡ rising_from 4 (E.extension extended.now).services }
{
    let mut least: u32 = 4;
    // by index, as `service` takes it: a `map` over the range would only move it into a closure, no plainer
    for k in 0..extended.count() {
        let service = extended.service(k);
        if service_ok(least, service) {
            least = (service.number as u32) + 1;
        } else {
            return false;
        }
    }
    true
}

// Whether the services are accepted: refusal 61's test.
#[tactic(auto, using(crate::proofs::Listed::ok_few, crate::proofs::Listed::ok_many))]
pub fn services_ok<E: Extended>(extended: &E) -> bool
    ensures { result ≡ services_ok (E.extension extended.now).services }
{
    if extended.count() <= MOST_SERVICES {
        return services_rise(extended);
    }
    false
}

// The class of a number among the services, 0 where it isn't there: of the first with that number, in order, as the definition has it of any list.
#[tactic(auto, using(crate::proofs::Listed::class_here, crate::proofs::Listed::class_further, crate::proofs::Listed::class_none))]
fn listed_class<E: Extended>(extended: &E, number: u16) -> u8
    requires { length (E.extension extended.now).services ≤ E.room extended.now }
    ensures { result ≡ listed_class (E.extension extended.now).services number }
{
    // by index, as in `services_rise`
    for k in 0..extended.count() {
        let service = extended.service(k);
        if service.number == number {
            return service.class;
        }
    }
    0
}

// The class of a type: itself up to 3, else what the services give.
#[tactic(auto, using(crate::proofs::ServiceClass::own_type, crate::proofs::ServiceClass::above_type))]
pub fn class_of<E: Extended>(extended: &E, number: u16) -> u8
    requires { length (E.extension extended.now).services ≤ E.room extended.now }
    ensures { result ≡ class_of (E.extension extended.now).services number }
{
    if number <= LAST_TYPE {
        return number as u8;
    }
    listed_class(extended, number)
}
