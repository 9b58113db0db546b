// Id 41: the energy to a level, module 6.
ghost use Rattle.std.specs.Prelude.{◌≤◌};

use battery::lent::Lent;
use battery::{Ledger, Totals};
use card::Card;
use vectors_words::Words;

// From a state of charge to the level asked after n zones.
#[tactic(auto, using(card::proofs::Figures::lent_own))]
fn energy(words: Words<'_>, card: Card, n: usize, soc: f64) -> f64
    requires { (n ≤ 64) × (card.layers ≤ 64) }
{
    let most = vectors_lists::calls::given(words, n + 24);
    let target = words.number(n + 26);
    let ledger = Ledger {
        card,
        count: card.layers,
        totals: Totals::default(),
    };
    let figures = card::pcm::figures_of(card);
    let salts = card::pcm::lent(card, &figures);
    let lent = Lent { ledger, salts };
    let r = run_charges::calculate_charge_energy_demand(lent, most, target, soc);
    r.0
}

pub fn charge_energy_demand(words: Words<'_>) -> bool {
    let card = words.card();
    if card.layers > 64 {
        return false;
    }
    let n = card.layers as usize;
    // None where 25 refuses the level.
    let r = crate::zones::level(words, card).map(|soc| energy(words, card, n, soc));
    words.has(n + 29) & words.word_is(23, n as u64) & words.option_is(n + 27, r)
}
