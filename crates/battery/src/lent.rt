// What a step is lent of a battery besides its zones.
ghost use Rattle.std.specs.Prelude.{◌≤◌};
ghost use Rattle.zone.specs.Lent.{step_by};
ghost use Rattle.card.specs.Lent.{SaltsLent};

use crate::Ledger;
use zone::lent::LentSalts;

// A battery whose zones lie apart, and its card's salts. Below the steps a card goes with its salts as two parameters and a clause: a struct for each of card,
// hydronic task and demand task would be longer than that clause.
#[derive(Clone, Copy)]
pub struct Lent<'a, const APART: usize> {
    pub ledger: Ledger,
    pub salts: LentSalts<'a, APART>,
    pub ghost own: { (ledger.card.layers ≤ salts.layers) × SaltsLent ledger.card salts.figures.now (step_by APART salts.step) },
}
