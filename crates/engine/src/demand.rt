// The step of a demand: trial and commit, refusals 20 and 21. As in `steps`, the zones stay where they lie.
ghost use Rattle.std.specs.Prelude.{◌≡◌, true, false, ◌≤◌};
ghost use Rattle.battery.specs.Battery.{zones_finite};
ghost use Rattle.battery.specs.Answer.{settled};
ghost use Rattle.battery.specs.Ledger.{whole};
ghost use Rattle.runs.specs.Runs.{end_refusal};
ghost use Rattle.runs.specs.Zoned.{AsDefined};
ghost use Rattle.engine.specs.Steps.{demand_power, demand_task, demand_ran, demand_answered, demand_from, demand_given, demand_energy};

use battery::lent::Lent;
use battery::{Demand, Ledger, Reply};
use card::Card;
use engine_replies::totals::ServiceClass;
use refusals::Refusal;
use run_demand::DemandTask;
use runs::Stopped;
use zone::KilowattHours;

// The Rust's electric_charge, where the card charges during a demand.
#[tactic(auto, unfolding(crate::specs::Steps::demand_power))]
fn demand_power(card: Card, control: bool) -> f64
    ensures { result ≡ demand_power card control }
{
    if (card.simultaneous == 1) & control {
        return card.power;
    }
    0.0
}

#[tactic(auto, unfolding(crate::specs::Steps::demand_task))]
fn demand_task(ledger: Ledger, demand: Demand, feed: f64) -> DemandTask
    ensures { result ≡ demand_task ledger demand feed }
{
    let card = ledger.card;
    DemandTask {
        card,
        pcm: card::pcm::derived(card),
        feed,
        power: demand_power(card, demand.control),
        demand: KilowattHours(demand.required / (card.units as f64)),
        seconds: runs::time_available(ledger, demand.start) * floats::SECONDS_PER_HOUR,
    }
}

// The substeps of a demand. Here and below `feed` is the demand's return temperature, once it is there: the definitions take it beside the demand.
fn demand_stopped<const APART: usize>(
    lent: Lent<'_, APART>,
    demand: Demand,
    feed: f64,
    zones: &mut [f64; 64],
) -> Stopped
    ensures { AsDefined (end_refusal result.end) result zones.new (demand_ran (whole lent.entry.ledger zones.old) demand feed) }
{
    let ledger = lent.ledger;
    let task = demand_task(ledger, demand, feed);
    let start = engine_replies::demand_start(ledger);
    let budget = ledger.card.budget as u32;
    let e = run_demand::demand_run(task, lent.salts, budget, start, zones);
    run_demand::demand_ended(e)
}

// On the battery's own zones. Apart from `trial`: one function of both would copy the zones of each committed demand.
fn committed<const APART: usize>(
    lent: Lent<'_, APART>,
    demand: Demand,
    feed: f64,
    zones: &mut [f64; 64],
) -> Result<Reply, Refusal>
    requires { (zones_finite zones.old lent.ledger.card.layers ≡ true) × (demand.commit ≡ true) }
    ensures { settled lent.entry.ledger zones.old result zones.new ≡ demand_answered (whole lent.entry.ledger zones.old) demand feed }
{
    let ledger = lent.ledger;
    let s = demand_stopped(lent, demand, feed, zones);
    let class = ServiceClass::from(demand.service);
    let totals = engine_replies::totals::served_totals(ledger, class, s);
    let a = engine_replies::demand_reply(ledger, s, totals);
    engine_replies::unless_refused(s.end, a)
}

// On a copy of the zones.
fn trial<const APART: usize>(
    lent: Lent<'_, APART>,
    demand: Demand,
    feed: f64,
    zones: &[f64; 64],
) -> Result<Reply, Refusal>
    requires { (zones_finite zones.now lent.ledger.card.layers ≡ true) × (demand.commit ≡ false) }
    ensures { settled lent.entry.ledger zones.now result zones.now ≡ demand_answered (whole lent.entry.ledger zones.now) demand feed }
{
    let mut own = *zones;
    let s = demand_stopped(lent, demand, feed, &mut own);
    let a = engine_replies::demand_reply(lent.ledger, s, lent.ledger.totals);
    engine_replies::unless_refused(s.end, a)
}

#[tactic(auto, unfolding(crate::specs::Steps::demand_from, battery::specs::Answer::settled))]
fn demand_from<const APART: usize>(
    lent: Lent<'_, APART>,
    demand: Demand,
    feed: f64,
    zones: &mut [f64; 64],
) -> Result<Reply, Refusal>
    requires { zones_finite zones.old lent.ledger.card.layers ≡ true }
    ensures { settled lent.entry.ledger zones.old result zones.new ≡ demand_from (whole lent.entry.ledger zones.old) demand feed }
{
    let class = ServiceClass::from(demand.service);
    if demand.commit & engine_replies::totals::unserved(class) {
        return Err(Refusal::NoService);
    }
    if demand.commit {
        return committed(lent, demand, feed, zones);
    }
    trial(lent, demand, feed, zones)
}

#[tactic(auto, unfolding(crate::specs::Steps::demand_given, battery::specs::Answer::settled))]
fn demand_given<const APART: usize>(
    lent: Lent<'_, APART>,
    demand: Demand,
    given: Option<f64>,
    zones: &mut [f64; 64],
) -> Result<Reply, Refusal>
    requires { zones_finite zones.old lent.ledger.card.layers ≡ true }
    ensures { settled lent.entry.ledger zones.old result zones.new ≡ demand_given (whole lent.entry.ledger zones.old) demand given }
{
    match given {
        None => Err(Refusal::NoReturn),
        Some(feed) => demand_from(lent, demand, feed, zones),
    }
}

#[tactic(auto, unfolding(crate::specs::Steps::demand_energy), using(engine_replies::proofs::Settled::plain_with))]
pub fn demand_energy<const APART: usize>(
    lent: Lent<'_, APART>,
    demand: Demand,
    zones: &mut [f64; 64],
) -> Result<Reply, Refusal>
    requires { zones_finite zones.old lent.ledger.card.layers ≡ true }
    ensures { settled lent.entry.ledger zones.old result zones.new ≡ demand_energy (whole lent.entry.ledger zones.old) demand }
{
    let ledger = lent.ledger;
    if demand.required <= floats::TOLERANCE {
        let a = battery::answers::plain_reply(0.0, ledger.totals);
        return engine_replies::checked(ledger, a, zones);
    }
    demand_given(lent, demand, demand.feed, zones)
}
