// Calls of a record's words, and where the answer stands after them. Not the sheet's readers over a trait: flags and kinds are words of their own, and these
// readers promise only where the answer stands.
ghost use Rattle.std.specs.Prelude.{◌≤◌, IfSome};

use battery::{Call, Demand, Hydronic};
use vectors_words::Words;

// A mark and a value.
pub fn given(words: Words<'_>, i: usize) -> Option<f64>
    requires { i ≤ 512 }
{
    if words.word_is(i, 0) {
        None
    } else {
        Some(words.number(i + 1))
    }
}

fn demand(words: Words<'_>) -> Call {
    let feed = given(words, 6);
    Call::DemandEnergy(Demand {
        service: words.narrow(1, u8::MAX),
        commit: words.word_is(2, 1),
        control: words.word_is(3, 1),
        required: words.number(4),
        start: words.number(5),
        feed,
    })
}

fn hydronic(words: Words<'_>) -> Call {
    Call::ChargeHydronic(Hydronic {
        inlet: words.number(1),
        hours: words.number(2),
        flow: words.number(3),
        target: words.number(4),
        limit: words.number(5),
        a: words.number(6),
        b: words.number(7),
        velocity: words.number(8),
        diameter: words.number(9),
    })
}

fn energy_demand(words: Words<'_>) -> Call {
    let most = given(words, 1);
    Call::ChargeEnergyDemand(most, words.number(3))
}

// The call, on a card that sets a floor or none, and the answer's first word, where the kind is known. By the number and not by the sheet's `Kind`: one match tells both, and the crate needs no sheet.
pub fn read(words: Words<'_>, floor: bool) -> Option<(Call, usize)>
    ensures { IfSome result (λ call. call.1 ≤ 16) }
{
    match words.word(0) {
        1 => Some((demand(words), 8)),
        2 => Some((Call::ChargeElectric(words.number(1), words.number(2)), 3)),
        3 => Some((hydronic(words), 10)),
        4 => Some((Call::HeatLoss(floor), 1)),
        5 => Some((Call::CloseTimestep, 1)),
        6 => Some((Call::ReadStateOfCharge, 1)),
        7 => Some((energy_demand(words), 4)),
        _ => None,
    }
}
