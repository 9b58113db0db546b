// Document 01's stand-ins on f64. The definitions are in specs/, the laws of rounding in proofs/.
#![tactic(auto)]

pub mod bits;

ghost use Rattle.std.specs.Prelude.{◌≡◌, ◌&&◌, ◌≤◌, length};
ghost use Rattle.std.specs.Float.Ieee.{eq};
ghost use Rattle.floats.specs.Constants.{zero};
ghost use Rattle.floats.specs.Standins.{finite64, magnitude as magnitude_of, larger as larger_of, nearly_equal, max_zero, min as min_of, square as square_of};
ghost use Rattle.floats.specs.Sum2.{sum2_step, sum2};

// max_relative of nearly equal, unless given.
pub const MAX_RELATIVE: f64 = 2.220446049250313e-16;

// Epsilon of a card's max and ref, of energies and of temperatures; the tolerance above a state of charge of 1.
pub const TOLERANCE: f64 = 1e-10;

// max_relative of a demand's energies.
pub const DEMAND_RELATIVE: f64 = 1e-9;

pub const NEGLIGIBLE_ENERGY_KJ: f64 = 1e-6;

pub const DEFAULT_AMBIENT_TEMPERATURE: f64 = 16.0;

// The floor of standing losses.
pub const ROOM_TEMPERATURE_C: f64 = 16.0;

pub const TEMP_AMBIENT_RATED_LOSSES_C: f64 = 20.0;

pub const SECONDS_PER_MINUTE: f64 = 60.0;

pub const WATTS_PER_KILOWATT: f64 = 1000.0;

pub const MILLIMETRES_IN_METRE: f64 = 1000.0;

pub const SECONDS_PER_HOUR: f64 = 3600.0;

pub const KILOJOULES_PER_KILOWATT_HOUR: f64 = 3600.0;

#[tactic(auto, using(crate::proofs::Finite::finite_is), unfolding(crate::specs::Standins::finite64))]
pub fn is_finite(x: f64) -> bool
    ensures { result ≡ finite64 x }
{
    x.is_finite()
}

// One number more in a running test: from 0.0 on, it equals 0 as long as each number is finite. Two operations, no branch.
#[tactic(auto, using(crate::proofs::Finite::zero_literal, crate::proofs::Spread::spread_is), unfolding(crate::specs::Standins::finite64))]
pub fn finite_step(spread: f64, x: f64) -> f64
    ensures { eq result zero ≡ (eq spread zero && finite64 x) }
{
    spread + (x - x)
}

// Not std's `abs`: of -0 that gives 0, this -0.
#[tactic(auto, unfolding(crate::specs::Standins::magnitude))]
pub fn magnitude(p: f64) -> f64
    ensures { result ≡ magnitude_of p }
{
    if p < 0.0 { -p } else { p }
}

// Not std's `max`: of a NaN and a number that gives the number, this the first.
#[tactic(auto, unfolding(crate::specs::Standins::larger))]
fn larger(p: f64, q: f64) -> f64
    ensures { result ≡ larger_of p q }
{
    if p < q { q } else { p }
}

// The stand-in of `relative_eq!`.
#[tactic(auto, unfolding(crate::specs::Standins::nearly_equal))]
pub fn nearly_equal(p: f64, q: f64, epsilon: f64, relative: f64) -> bool
    ensures { result ≡ nearly_equal p q epsilon relative }
{
    if p == q {
        return true;
    }
    if is_finite(p) & is_finite(q) {
        let difference = magnitude(p - q);
        if difference <= epsilon {
            return true;
        }
        return difference <= larger(magnitude(p), magnitude(q)) * relative;
    }
    false
}

// The stand-in of `max(0.0)`; 0 of a NaN, and of -0, where std's may give either zero.
#[tactic(auto, unfolding(crate::specs::Standins::max_zero))]
pub fn max_zero(p: f64) -> f64
    ensures { result ≡ max_zero p }
{
    if p > 0.0 { p } else { 0.0 }
}

// The smaller, of two equal ones the first. Not std's `min`: of a NaN and a number that gives the number, this the second.
#[tactic(auto, unfolding(crate::specs::Standins::min))]
pub fn min(p: f64, q: f64) -> f64
    ensures { result ≡ min_of p q }
{
    if p <= q { p } else { q }
}

// The stand-in of `powi(2)`.
#[tactic(auto, unfolding(crate::specs::Standins::square))]
pub fn square(p: f64) -> f64
    ensures { result ≡ square_of p }
{
    p * p
}

// A compensated sum: the plain sum and what its roundings lost.
#[derive(Clone, Copy)]
pub struct Sum2 {
    pub s: f64,
    pub c: f64,
}

#[tactic(auto, unfolding(crate::specs::Sum2::sum2_step))]
pub fn sum2_step(sum: Sum2, p: f64) -> Sum2
    ensures { result ≡ sum2_step sum p }
{
    let t = sum.s + p;
    let z = t - sum.s;
    Sum2 {
        s: t,
        c: sum.c + ((sum.s - (t - z)) + (p - z)),
    }
}

// The compensated sum.
#[tactic(auto, using(crate::proofs::Sum2Laws::sum2_more, crate::proofs::Sum2Laws::sum2_end), unfolding(crate::specs::Sum2::sum2_after))]
pub fn sum_with_accumulator(xs: &[f64]) -> f64
    ensures { result ≡ sum2 xs.now (length xs.now) }
{
    let mut a = Sum2 { s: 0.0, c: 0.0 };
    for x in xs {
        a = sum2_step(a, *x);
    }
    a.s + a.c
}
