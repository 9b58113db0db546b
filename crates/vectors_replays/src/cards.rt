// Id 31: refusals 1 to 4 and what HeatBatteryPcm::new derives.
use card::Card;
use vectors_words::Words;
use vectors_words::cards::VERSION;

fn derived_is(words: Words<'_>, card: Card) -> bool {
    if card.layers > 64 {
        return false;
    }
    let salt = card::pcm::salt_of(card);
    let figures = card::pcm::figures_of(card);
    let salts = card::pcm::lent(card, &figures);
    let stored = card::pcm::energy_at(card, salts, card.max);
    let pcm = card::pcm::derived(card);
    words.numbers_are(24, &[salt.below, salt.during, salt.above])
        & words.numbers_are(27, &[stored.0, pcm.rated, pcm.diameter])
}

pub fn card(words: Words<'_>) -> bool {
    let card = words.card();
    let verdict = card::verdict::check(VERSION, card);
    let first = words.has(30) & words.word_is(23, refusals::refused_number(verdict) as u64);
    match verdict {
        Ok(()) => first & derived_is(words, card),
        Err(_) => first & words.numbers_are(24, &[0.0; 6]),
    }
}
