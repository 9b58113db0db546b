// Id 51: a call on the battery that the last record left.
use battery::{Answer, Call};
use refusals::Refusal;
use vectors_lists::Held;
use vectors_words::Words;

fn advanced(held: Held, call: Call) -> Answer {
    let b = held.battery;
    let l = battery::ledger_of(b);
    let zones = b.zones;
    if battery::is_accepted(held.version, l, &zones) {
        return engine::steps::advance(held.version, b, call);
    }
    battery::answers::refused(Refusal::BadCall, b)
}

// Whether the answer agrees. None does where no kind is known.
pub fn call(words: Words<'_>, held: &mut Held) -> bool {
    let Some((call, at)) = vectors_lists::calls::read(words, held.floor) else {
        return false;
    };
    let answer = advanced(*held, call);
    held.battery = answer.battery;
    vectors_lists::answer_is(words, at, answer)
}
