// What a call answers, without the substeps that led there: a run's line, its refusal. The zones stay where they lie; a
// refused run may leave any there, and its answer shows the battery as it was.
#![tactic(auto)]

pub mod totals;

ghost use Rattle.std.specs.Prelude.{◌≡◌, true, List, ◌≤◌, Float};
ghost use Rattle.battery.specs.Battery.{zones_finite};
ghost use Rattle.battery.specs.Answer.{answer_with, settled};
ghost use Rattle.battery.specs.Ledger.{whole};
ghost use Rattle.runs.specs.Runs.{end_refusal};
ghost use Rattle.engine_replies.specs.Replies.{checked as checked_of, unless_refused, demand_start, demand_reply, charged_time, run_reply};

use battery::{Ledger, Reply, Totals};
use refusals::Refusal;
use run_demand::DemandState;
use runs::{End, Stopped};
use zone::KilowattHours;

// 23 where a zone, a reported number or a total is not finite.
#[tactic(auto, unfolding(crate::specs::Replies::checked), using(crate::proofs::Settled::settled_answer, crate::proofs::Settled::settled_refusal))]
pub fn checked(ledger: Ledger, reply: Reply, zones: &[f64; 64]) -> Result<Reply, Refusal>
    requires { ledger.card.layers ≤ 64 }
    ensures { (before : List Float) → settled ledger before result zones.now ≡ checked_of (whole ledger before) (answer_with ledger reply zones.now) }
{
    if battery::answers::reply_finite(ledger, reply, zones) {
        Ok(reply)
    } else {
        Err(Refusal::NotFinite)
    }
}

// The answer of a run, unless it ended in 22, 23 or 24. The zones of a run that answers are finite by a law
// (crates/engine/proofs/FiniteZones.antt), and are not tested again.
#[tactic(auto, unfolding(crate::specs::Replies::checked, crate::specs::Replies::unless_refused), using(battery::proofs::AnswerLaws::numbers_decide, crate::proofs::Settled::settled_answer, crate::proofs::Settled::settled_refusal))]
pub fn unless_refused(end: End, reply: Reply) -> Result<Reply, Refusal>
    ensures { (l : Ledger) (before zones : List Float) → (end_refusal end ≡ 0 → zones_finite zones l.card.layers ≡ true) → settled l before result zones ≡ unless_refused (whole l before) end (answer_with l reply zones) }
{
    runs::end_refusal(end)?;
    if !battery::answers::numbers_finite(reply) {
        return Err(Refusal::NotFinite);
    }
    Ok(reply)
}

#[tactic(auto, unfolding(crate::specs::Replies::demand_start))]
pub fn demand_start(ledger: Ledger) -> DemandState
    ensures { result ≡ demand_start ledger }
{
    let card = ledger.card;
    let pcm = card::pcm::derived(card);
    DemandState {
        step: 1.0,
        running: 0.0,
        delivered: KilowattHours(0.0),
        electric: KilowattHours(ledger.totals.electric),
        outlet: 0.0,
        reynold: runs::reynold_between(card.inlet, card.outlet, card.velocity, pcm.diameter),
    }
}

pub fn demand_reply(ledger: Ledger, stopped: Stopped, totals: Totals) -> Reply
    ensures { result ≡ demand_reply ledger stopped totals }
{
    let units = ledger.card.units as f64;
    Reply {
        energy: stopped.energy.0 * units,
        outlet: Some(stopped.outlet),
        time: stopped.time,
        substeps: stopped.substeps,
        totals,
    }
}

// The seconds that a charge's line shows: those of a hydronic run from version 2 on, else 0.
#[tactic(auto, unfolding(crate::specs::Replies::charged_time))]
pub fn charged_time(version: u8, stopped: Stopped) -> f64
    ensures { result ≡ charged_time version stopped }
{
    if card::version::shows_hydronic_time(version) {
        return stopped.time;
    }
    0.0
}

// A line of kinds 2 to 4, with its time: no outlet.
pub fn run_reply(time: f64, stopped: Stopped, totals: Totals) -> Reply
    ensures { result ≡ run_reply time stopped totals }
{
    Reply {
        energy: stopped.energy.0,
        outlet: None,
        time,
        substeps: stopped.substeps,
        totals,
    }
}
