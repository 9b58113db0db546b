// Refusals 1 to 4 of a card.
ghost use Rattle.std.specs.Prelude.{◌≡◌};
ghost use Rattle.card.specs.Card.{card_verdict};

use crate::Card;
use refusals::Refusal;

// In document 01's order.
#[tactic(auto, unfolding(crate::specs::Card::card_verdict))]
pub fn check(version: u8, card: Card) -> Result<(), Refusal>
    ensures { result ≡ card_verdict version card }
{
    if !crate::card_in_range(card) {
        return Err(Refusal::CardOutOfRange);
    }
    if !(card.lower <= card.upper) {
        return Err(Refusal::LowerAboveUpper);
    }
    if card.max <= floats::TEMP_AMBIENT_RATED_LOSSES_C {
        return Err(Refusal::MaxTooLow);
    }
    if card.max < card.reference {
        return Err(Refusal::NothingToStore);
    }
    if floats::nearly_equal(
        card.max,
        card.reference,
        floats::TOLERANCE,
        floats::MAX_RELATIVE,
    ) {
        return Err(Refusal::NothingToStore);
    }
    Ok(())
}
