// Answer lines whose call ran no substep, and the test of refusal 23 on a line.
ghost use Rattle.std.specs.Prelude.{◌≡◌, ◌≤◌};
ghost use Rattle.refusals.specs.Number.{number};
ghost use Rattle.battery.specs.Answer.{answer_of, outlet_mark, outlet_value, refused_with, answer_finite, answer_with, numbers_finite, plain_reply};

use crate::{Answer, Battery, Ledger, Reply, Totals};
use refusals::Refusal;

// The mark of an outlet that is not there.
const ABSENT: u8 = 0;

// A refusal line: the battery stays.
pub fn refused(refusal: Refusal, battery: Battery) -> Answer
    ensures { result ≡ refused_with (number refusal) battery }
{
    refused_with(refusal.number(), battery)
}

// The line of any number, as the definition has it.
#[tactic(auto, unfolding(crate::specs::Answer::refused_with))]
pub fn refused_with(refusal: u8, battery: Battery) -> Answer
    ensures { result ≡ refused_with refusal battery }
{
    Answer {
        refusal,
        energy: 0.0,
        mark: ABSENT,
        outlet: 0.0,
        time: 0.0,
        substeps: 0,
        battery,
    }
}

// The mark of an outlet: 1 where there is one.
pub fn outlet_mark(outlet: Option<f64>) -> u8
    ensures { result ≡ outlet_mark outlet }
{
    match outlet {
        Some(_) => 1,
        None => ABSENT,
    }
}

// Its value, 0 where there is none.
pub fn outlet_value(outlet: Option<f64>) -> f64
    ensures { result ≡ outlet_value outlet }
{
    outlet.unwrap_or(0.0)
}

// An answer that ran no substep and has no outlet.
pub fn plain_reply(energy: f64, totals: Totals) -> Reply
    ensures { result ≡ plain_reply energy totals }
{
    Reply {
        energy,
        outlet: None,
        time: 0.0,
        substeps: 0,
        totals,
    }
}

impl Reply {
    // Its numbers, with this battery.
    pub fn answer(self, battery: Battery) -> Answer
        ensures { result ≡ answer_of self battery }
    {
        Answer {
            refusal: refusals::ANSWERED,
            energy: self.energy,
            mark: outlet_mark(self.outlet),
            outlet: outlet_value(self.outlet),
            time: self.time,
            substeps: self.substeps,
            battery,
        }
    }
}

// Whether every reported number and total is finite, but for the zones.
#[tactic(auto, unfolding(crate::specs::Answer::numbers_finite))]
pub fn numbers_finite(reply: Reply) -> bool
    ensures { result ≡ numbers_finite reply }
{
    floats::is_finite(reply.energy)
        & floats::is_finite(outlet_value(reply.outlet))
        & floats::is_finite(reply.time)
        & crate::totals_finite(reply.totals)
}

// Whether every zone, reported number and total is finite.
#[tactic(auto, unfolding(crate::specs::Answer::answer_finite, crate::specs::Answer::numbers_finite), using(crate::proofs::Zones::finite_front))]
pub fn reply_finite(ledger: Ledger, reply: Reply, zones: &[f64; 64]) -> bool
    requires { ledger.card.layers ≤ 64 }
    ensures { result ≡ answer_finite (answer_with ledger reply zones.now) }
{
    numbers_finite(reply) & crate::zones_finite(&zones[..ledger.card.layers as usize])
}
