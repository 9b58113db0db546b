// Lists of calls on one battery, ids 50 and 51 of rust/oracle/VECTORS.md, but for the engine: calls, batteries and answers in words.
#![tactic(auto)]

pub mod calls;

ghost use Rattle.std.specs.Prelude.{◌≤◌};

use battery::{Answer, Battery};
use card::Card;
use vectors_words::Words;

// What the last record of a list left.
#[derive(Clone, Copy)]
pub struct Held {
    pub version: u8,
    // whether the card sets a floor
    pub floor: bool,
    pub battery: Battery,
}

// What stands before a list: the battery of no words, of which no version is known. A call on it is refused with 10.
impl Default for Held {
    fn default() -> Held {
        Held {
            version: 0,
            floor: false,
            battery: battery(Words(&[]), 0),
        }
    }
}

impl Held {
    // What a record 50 leaves that is no start: a battery without layers, on which a call is refused with 10. Its totals are the five numbers behind the card
    // in the words of the battery before it.
    pub fn unstarted(self) -> Held {
        let b = self.battery;
        let totals = [b.total, b.pump, b.direct, b.charged, b.electric];
        let n = (b.count as usize).min(5);
        let mut behind = totals;
        for i in 0..5 {
            behind[i] = if i < n { b.zones[i] } else { totals[i - n] };
        }
        let card = Card {
            layers: 0,
            ..b.card
        };
        let battery = Battery {
            card,
            zones: [0.0; 64],
            count: 0,
            total: behind[0],
            pump: behind[1],
            direct: behind[2],
            charged: behind[3],
            electric: behind[4],
        };
        Held { battery, ..self }
    }
}

// The battery of a record 50 with n zones.
fn battery(words: Words<'_>, n: usize) -> Battery
    requires { n ≤ 64 }
{
    let card = words.card();
    Battery {
        card,
        zones: words.numbers(24, n),
        count: card.layers,
        total: words.number(n + 24),
        pump: words.number(n + 25),
        direct: words.number(n + 26),
        charged: words.number(n + 27),
        electric: words.number(n + 28),
    }
}

// Id 50: card, zones, five totals, version, flag. None of a record that has not those words.
pub fn start(words: Words<'_>) -> Option<Held> {
    let n = words.count(23)?;
    let version = words.narrow(n + 29, u8::MAX);
    if words.has(n + 31) & words.word_is(0, n as u64) & card::version::known_version(version) {
        Some(Held {
            version,
            floor: words.word_is(n + 30, 1),
            battery: battery(words, n),
        })
    } else {
        None
    }
}

// The answer's numbers from word `at` on.
fn numbers_are(words: Words<'_>, at: usize, answer: Answer) -> bool
    requires { at ≤ 512 }
{
    words.marked_is(at, answer.refusal as u64, answer.energy)
        & words.marked_is(at + 2, answer.mark as u64, answer.outlet)
        & words.number_is(at + 4, answer.time)
        & words.word_is(at + 5, answer.substeps as u64)
}

// The record ends with the zones and the totals, from word `at` on.
fn battery_is(words: Words<'_>, at: usize, battery: Battery) -> bool
    requires { at ≤ 32 }
{
    let zones = battery.zones;
    let n = (battery.count as usize).min(64);
    let totals = [
        battery.total,
        battery.pump,
        battery.direct,
        battery.charged,
        battery.electric,
    ];
    words.has(at + n + 5) & words.numbers_are(at, &zones[..n]) & words.numbers_are(at + n, &totals)
}

// Whether the record has the answer, from word `at` on.
pub fn answer_is(words: Words<'_>, at: usize, answer: Answer) -> bool
    requires { at ≤ 16 }
{
    let b = answer.battery;
    numbers_are(words, at, answer) & battery_is(words, at + 6, b)
}
