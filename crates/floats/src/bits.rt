// Document 01's stand-ins that take a float's bits apart: `ln`, and `as usize`. Their definitions are in specs/Ln.antt and specs/Standins.antt.
// `f64::to_bits` asks that a number is no NaN, and so do the functions that call it.
ghost use Rattle.std.specs.Prelude.{◌≡◌, not, T};
ghost use Rattle.std.specs.Float.Ieee.{is_nan};
ghost use Rattle.floats.specs.Standins.{truncate as truncate_of};
ghost use Rattle.floats.specs.Ln.{mantissa as mantissa_of, exponent as exponent_of, series as series_of, ln_at, ln_normal, ln as ln_of};

const ROOT_TWO: f64 = 1.4142135623730951;

const LN_TWO: f64 = 0.6931471805599453;

const SMALLEST_NORMAL: f64 = 2.2250738585072014e-308;

const LARGEST_FINITE: f64 = 1.7976931348623157e308;

#[tactic(auto, using(crate::proofs::LnLaws::not_nan_pattern), unfolding(crate::specs::Ln::mantissa))]
fn mantissa(x: f64) -> f64
    requires { T (not (is_nan x)) }
    ensures { result ≡ mantissa_of x }
{
    let bits = f64::to_bits(x);
    f64::from_bits(bits % 0x0010_0000_0000_0000 + 0x3FF0_0000_0000_0000)
}

#[tactic(auto, unfolding(crate::specs::Ln::exponent))]
fn exponent(x: f64) -> u16
    requires { T (not (is_nan x)) }
    ensures { result ≡ exponent_of x }
{
    let bits = f64::to_bits(x);
    (bits / 0x0010_0000_0000_0000 % 2048) as u16
}

#[tactic(auto, using(crate::proofs::LnLaws::series_more), unfolding(crate::specs::Ln::series))]
fn series(w: f64) -> f64
    ensures { result ≡ series_of w 10 }
{
    let first: u16 = 21;
    let mut p = 1.0 / (first as f64);
    for j in 0..10u16 {
        let d = 19 - 2 * j;
        p = p * w + 1.0 / (d as f64);
    }
    p
}

#[tactic(auto, unfolding(crate::specs::Ln::ln_at))]
fn ln_at(m: f64, k: f64) -> f64
    ensures { result ≡ ln_at m k }
{
    let s = (m - 1.0) / (m + 1.0);
    let p = series(s * s);
    (2.0 * s) * p + k * LN_TWO
}

#[tactic(auto, unfolding(crate::specs::Ln::ln_normal))]
fn ln_normal(x: f64) -> f64
    requires { T (not (is_nan x)) }
    ensures { result ≡ ln_normal x }
{
    let m = mantissa(x);
    let e = exponent(x);
    let k = (e as f64) - 1023.0;
    if m > ROOT_TWO {
        ln_at(m * 0.5, k + 1.0)
    } else {
        ln_at(m, k)
    }
}

// Refused where x is not positive, normal and finite.
#[tactic(auto, using(crate::proofs::LnLaws::ordered), unfolding(crate::specs::Ln::ln))]
pub fn ln(x: f64) -> Option<f64>
    ensures { result ≡ ln_of x }
{
    if x >= SMALLEST_NORMAL {
        if x <= LARGEST_FINITE {
            let v = ln_normal(x);
            return Some(v);
        }
        return None;
    }
    None
}

// Rust's `as usize` on 64 bits: towards 0, to the nearest end of the range where it lies outside, 0 of a NaN. By the bits and not the library's cast:
// document 01 has it so, 'truncation from the bits'.
#[tactic(auto, unfolding(crate::specs::Standins::truncate), using(crate::proofs::Truncation::trunc_nan, crate::proofs::Truncation::trunc_negative, crate::proofs::Truncation::trunc_small, crate::proofs::Truncation::trunc_right, crate::proofs::Truncation::trunc_left, crate::proofs::Truncation::trunc_top))]
pub fn truncate(x: f64) -> u64
    ensures { result ≡ truncate_of x }
{
    if x.is_nan() {
        return 0;
    }
    let bits = f64::to_bits(x);
    if 0x8000_0000_0000_0000 <= bits {
        return 0;
    }
    let e = bits / 0x0010_0000_0000_0000;
    let m = bits % 0x0010_0000_0000_0000 + 0x0010_0000_0000_0000;
    if e < 1023 {
        return 0;
    }
    if e < 1075 {
        return m >> (1075 - e);
    }
    if e < 1087 {
        return m << (e - 1075);
    }
    0xFFFF_FFFF_FFFF_FFFF
}
