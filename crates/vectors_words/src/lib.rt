// The words of a record: 8 bytes each, the highest byte first. A word after the last one reads as 0.
// Places are asked to be at most 512 or 256, and counts 64, so that no sum overflows: a type for each would be taken apart at every sum.
#![tactic(auto)]

pub mod cards;

ghost use Rattle.std.specs.Prelude.{◌≡◌, ◌≤◌, ◌/◌, ◌==◌, length, drop, IfSome};
ghost use Rattle.std.specs.Float.{binary64};
ghost use Rattle.std.specs.Float.Ieee.{to_bits};
ghost use Rattle.vectors_words.specs.Words.{word_at, number_at};

#[derive(Clone, Copy)]
pub struct Words<'a>(pub &'a [u8]);

impl<'a> Words<'a> {
    // Whether the record has n words.
    pub fn has(self, n: usize) -> bool
        ensures { result ≡ (length self.entry.0.now / 8 == n) }
    {
        self.0.len() / 8 == n
    }

    // The words after the first.
    pub fn rest(self) -> Words<'a>
        ensures { result.0.now ≡ drop 8 self.entry.0.now }
    {
        Words(self.0.get(8..).unwrap_or_default())
    }

    pub fn word(self, i: usize) -> u64
        ensures { result ≡ word_at self.entry.0.now i }
    {
        if i < self.0.len() / 8 {
            codec::read_be(self.0, 8 * i, 8)
        } else {
            0
        }
    }

    pub fn number(self, i: usize) -> f64
        ensures { result ≡ number_at self.entry.0.now i }
    {
        codec::f64_of(self.word(i))
    }

    // A count of at most 64.
    pub fn count(self, i: usize) -> Option<usize>
        ensures { IfSome result (λ n. (n ≡ word_at self.entry.0.now i) × (n ≤ 64)) }
    {
        let w = self.word(i);
        (w <= 64).then_some(w as usize)
    }

    // A word as a narrower number; `most` stands for each word that is larger than those.
    pub fn narrow<T: TryFrom<u64> + Drop>(self, i: usize, most: T) -> T
    where
        T::Error: Drop,
    {
        T::try_from(self.word(i)).unwrap_or(most)
    }

    // The n numbers from word `at` on, and 0 above them. By value, of 64 places: a rule of the project, with no heap.
    pub fn numbers(self, at: usize, n: usize) -> [f64; 64]
        requires { (at ≤ 512) × (n ≤ 64) }
    {
        let mut xs = [0.0; 64];
        for (i, x) in (at..at + n).zip(&mut xs) {
            *x = self.number(i);
        }
        xs
    }

    pub fn word_is(self, i: usize, x: u64) -> bool
        ensures { result ≡ (word_at self.entry.0.now i == x) }
    {
        self.word(i) == x
    }

    pub fn flag_is(self, i: usize, x: bool) -> bool {
        self.word_is(i, u64::from(x))
    }

    // All 64 bits agree. A NaN agrees with each NaN.
    pub fn number_is(self, i: usize, x: f64) -> bool
        ensures { result ≡ (to_bits binary64 x == to_bits binary64 (number_at self.entry.0.now i)) }
    {
        codec::bits_of(x) == codec::bits_of(self.number(i))
    }

    // A mark and a value.
    pub fn marked_is(self, i: usize, mark: u64, x: f64) -> bool
        requires { i ≤ 1024 }
    {
        self.word_is(i, mark) & self.number_is(i + 1, x)
    }

    // A mark and a value; both 0 for none.
    pub fn option_is(self, i: usize, option: Option<f64>) -> bool
        requires { i ≤ 512 }
    {
        match option {
            Some(x) => self.marked_is(i, 1, x),
            None => self.marked_is(i, 0, 0.0),
        }
    }

    // The words from word `at` on are xs.
    pub fn numbers_are(self, at: usize, xs: &[f64]) -> bool
        requires { (at ≤ 512) × (length xs.now ≤ 64) }
    {
        (at..at + xs.len())
            .zip(xs)
            .all(|(i, x)| self.number_is(i, *x))
    }

    // The record ends with word i, and that is x.
    pub fn ends_with(self, i: usize, x: f64) -> bool
        requires { i ≤ 512 }
    {
        self.has(i + 1) & self.number_is(i, x)
    }
}
