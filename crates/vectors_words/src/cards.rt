// Cards of 23 words. Not the sheet's reader over a trait: a word holds each count as a number of its own, and this reader has no contract.
use card::Card;

// The version of a card without a list of calls.
pub const VERSION: u8 = card::version::OLDEST_VERSION;

impl<'a> crate::Words<'a> {
    // The card of the first 23 words.
    pub fn card(self) -> Card {
        Card {
            layers: self.narrow(0, u8::MAX),
            units: self.narrow(1, u16::MAX),
            simultaneous: self.narrow(2, u8::MAX),
            budget: self.narrow(3, u16::MAX),
            substep: self.number(4),
            timestep: self.number(5),
            inlet: self.number(6),
            outlet: self.number(7),
            max: self.number(8),
            reference: self.number(9),
            lower: self.number(10),
            upper: self.number(11),
            below: self.number(12),
            during: self.number(13),
            above: self.number(14),
            velocity: self.number(15),
            diameter: self.number(16),
            a: self.number(17),
            b: self.number(18),
            flow: self.number(19),
            losses: self.number(20),
            start: self.number(21),
            power: self.number(22),
        }
    }
}
