// The five totals after a call: running hours by the class of the service, charged total, charged electric.
ghost use Rattle.std.specs.Prelude.{◌≡◌};
ghost use Rattle.card.specs.declared.Card.{Card};
ghost use Rattle.engine_replies.specs.Classes.{service_class, unserved as unserved_of, pump_after, direct_after};
ghost use Rattle.engine_replies.specs.Totals.{served_totals, charged_totals, closed_totals};

use battery::{Ledger, Totals};
use runs::Stopped;

// The class of a service type.
#[derive(Clone, Copy)]
pub enum ServiceClass {
    Combi,
    Regular,
    Space,
    Direct,
}

impl From<u8> for ServiceClass {
    ghost from_gives = { λ service class. (card : Card) → class ≡ service_class card service };

    #[tactic(auto, unfolding(crate::specs::Classes::service_class))]
    fn from(service: u8) -> ServiceClass {
        match service {
            1 => ServiceClass::Regular,
            2 => ServiceClass::Space,
            3 => ServiceClass::Direct,
            _ => ServiceClass::Combi,
        }
    }
}

#[tactic(auto, unfolding(crate::specs::Classes::unserved))]
pub fn unserved(class: ServiceClass) -> bool
    ensures { result ≡ unserved_of class }
{
    matches!(class, ServiceClass::Combi)
}

#[tactic(auto, unfolding(crate::specs::Classes::pump_after))]
pub fn pump_after(class: ServiceClass, pump: f64, hours: f64) -> f64
    ensures { result ≡ pump_after class pump hours }
{
    match class {
        ServiceClass::Regular | ServiceClass::Space => pump + hours,
        ServiceClass::Combi | ServiceClass::Direct => pump,
    }
}

#[tactic(auto, unfolding(crate::specs::Classes::direct_after))]
pub fn direct_after(class: ServiceClass, direct: f64, hours: f64) -> f64
    ensures { result ≡ direct_after class direct hours }
{
    match class {
        ServiceClass::Direct => direct + hours,
        ServiceClass::Combi | ServiceClass::Regular | ServiceClass::Space => direct,
    }
}

// Running hours by class, and charged electric.
pub fn served_totals(ledger: Ledger, class: ServiceClass, stopped: Stopped) -> Totals
    ensures { result ≡ served_totals ledger class stopped }
{
    let hours = stopped.time / floats::SECONDS_PER_HOUR;
    Totals {
        total: ledger.totals.total + hours,
        pump: pump_after(class, ledger.totals.pump, hours),
        direct: direct_after(class, ledger.totals.direct, hours),
        charged: ledger.totals.charged,
        electric: stopped.electric.0,
    }
}

pub fn charged_totals(ledger: Ledger, stopped: Stopped) -> Totals
    ensures { result ≡ charged_totals ledger stopped }
{
    Totals {
        charged: ledger.totals.charged + stopped.energy.0,
        electric: stopped.electric.0,
        ..ledger.totals
    }
}

pub fn closed_totals(ledger: Ledger) -> Totals
    ensures { result ≡ closed_totals ledger }
{
    Totals {
        total: 0.0,
        pump: 0.0,
        direct: 0.0,
        ..ledger.totals
    }
}
