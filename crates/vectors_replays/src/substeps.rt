// Id 40: one substep over the zones, module 5.
ghost use Rattle.std.specs.Prelude.{◌≤◌};

use refusals::Refusal;
use substep::{Fault, Substep, SubstepInput};
use vectors_words::Words;

const FIRST_ZONE: usize = 24;

// What the substep is asked, after n zones.
fn input(words: Words<'_>, n: usize) -> SubstepInput
    requires { n ≤ 64 }
{
    let at = n + FIRST_ZONE;
    let mode = crate::mode_of(words.word(at));
    SubstepInput {
        mode,
        inlet: words.number(at + 1),
        seconds: words.number(at + 2),
        reynold: words.number(at + 3),
        flow: words.number(at + 4),
        power: words.number(at + 5),
        target: words.number(at + 6),
        a: words.number(at + 7),
        b: words.number(at + 8),
    }
}

// None on both sides, or one of ours and the published Rust's for each of n zones.
fn logarithms_are(words: Words<'_>, at: usize, n: usize, ours: u32) -> bool
    requires { (at ≤ 512) × (n ≤ 64) }
{
    match ours {
        0 => words.word_is(at, 0),
        1 => words.word_is(at, n as u64),
        _ => false,
    }
}

// The outputs from word `at` on. The published Rust takes a logarithm for each zone where ours takes one for all (document 02, Two).
fn answer_is(words: Words<'_>, at: usize, n: usize, substep: Substep) -> bool
    requires { (at ≤ 256) × (n ≤ 64) }
{
    let zones = substep.zones;
    let energies = substep.energies;
    words.word_is(at, 0)
        & words.numbers_are(
            at + 1,
            &[substep.outlet, substep.delivered.0, substep.charged.0],
        )
        & words.numbers_are(at + 4, &zones[..n])
        & words.numbers_are(at + 4 + n, &energies[..n])
        & logarithms_are(words, at + 4 + 2 * n, n, substep.logarithms)
}

// A refusal, and zeros after it.
fn refusal_is(words: Words<'_>, at: usize, n: usize, refusal: Refusal) -> bool
    requires { (at ≤ 256) × (n ≤ 64) }
{
    // an array, as there is no heap
    let zeros = [0.0; 64];
    words.word_is(at, refusal.number() as u64)
        & words.numbers_are(at + 1, &[0.0; 3])
        & words.numbers_are(at + 4, &zeros[..n])
        & words.numbers_are(at + 4 + n, &zeros[..n])
        & words.word_is(at + 4 + 2 * n, 0)
}

fn outputs_are(words: Words<'_>, at: usize, n: usize, substep: Substep) -> bool
    requires { (at ≤ 256) × (n ≤ 64) }
{
    let fault = substep.fault;
    match fault {
        None => answer_is(words, at, n, substep),
        Some(Fault::Logarithm) => refusal_is(words, at, n, Refusal::NoLogarithm),
        Some(Fault::NotFinite) => refusal_is(words, at, n, Refusal::NotFinite),
    }
}

pub fn substep(words: Words<'_>) -> bool {
    let card = words.card();
    if card.layers > 64 {
        return false;
    }
    let n = card.layers as usize;
    let zones = words.numbers(FIRST_ZONE, n);
    let d = input(words, n);
    let pcm = card::pcm::derived(card);
    let figures = card::pcm::figures_of(card);
    let salts = card::pcm::lent(card, &figures);
    let r = vectors_by_value::process_heat_battery_zones(card, pcm, salts, d, zones);
    words.has(38 + 3 * n) & words.word_is(23, n as u64) & outputs_are(words, n + 33, n, r)
}
