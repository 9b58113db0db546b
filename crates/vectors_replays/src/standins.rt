// Ids 1 to 8: document 01's stand-ins. The function of an id answers whether a record agrees.
use vectors_words::Words;

pub fn finite(words: Words<'_>) -> bool {
    let r = floats::is_finite(words.number(0));
    words.has(2) & words.flag_is(1, r)
}

pub fn nearly_equal(words: Words<'_>) -> bool {
    let p = words.number(0);
    let q = words.number(1);
    let r = floats::nearly_equal(p, q, words.number(2), words.number(3));
    words.has(5) & words.flag_is(4, r)
}

pub fn max_zero(words: Words<'_>) -> bool {
    let r = floats::max_zero(words.number(0));
    words.ends_with(1, r)
}

pub fn min(words: Words<'_>) -> bool {
    let r = floats::min(words.number(0), words.number(1));
    words.ends_with(2, r)
}

pub fn square(words: Words<'_>) -> bool {
    let r = floats::square(words.number(0));
    words.ends_with(1, r)
}

pub fn sum2(words: Words<'_>) -> bool {
    let Some(k) = words.count(0) else {
        return false;
    };
    let r = floats::sum_with_accumulator(&words.numbers(1, k)[..k]);
    words.ends_with(k + 1, r)
}

pub fn ln(words: Words<'_>) -> bool {
    let r = floats::bits::ln(words.number(0));
    words.has(3) & words.option_is(1, r)
}

pub fn truncate(words: Words<'_>) -> bool {
    let r = floats::bits::truncate(words.number(0));
    words.has(2) & words.word_is(1, r)
}
