// Numbers at a place of a slice, the highest byte first, and f64 by its bits. Bytes and place are no struct: one that holds a `&mut` is two things in a
// clause, as passed and at the return, and each writer's equation would name both. Readers take a place too: a slice from it on would ask the same of its
// length.
#![tactic(auto)]

ghost use Rattle.std.specs.Prelude.{◌≡◌, ◌+◌, ◌*◌, ◌^◌, ◌≤◌, ◌<◌, length, take, drop, get_or};
ghost use Rattle.std.proofs.lemmas.List.Edits.{sets};
ghost use Rattle.std.specs.Float.{binary64};
ghost use Rattle.std.specs.Float.Ieee.{of_bits, to_bits};
ghost use Rattle.codec.specs.Bytes.{be, be_at, be_bytes, f64_at, nth_f64, f64_bytes};

// The number that the w bytes from at on stand for, and that it has w digits. One function of the width, and not the library's
// `from_be_bytes`: that takes an array, into which each reader would first copy its bytes, and each width would need a law of its own. So in `put_be`.
pub fn read_be(bytes: &[u8], at: usize, w: usize) -> u64
    requires { (w ≤ 8) × (at + w ≤ length bytes.now) }
    ensures number { result ≡ be (take w (drop at bytes.now)) }
    ensures digits { result < 256 ^ w }
{
    let mut x: u64 = 0;
    for byte in &bytes[at..at + w] {
        x = x * 256 + u64::from(*byte);
    }
    x
}

// The byte at a place, 0 after the end.
pub fn byte_or_zero(bytes: &[u8], at: usize) -> u8
    ensures { result ≡ get_or bytes.now at 0 }
{
    bytes.get(at).copied().unwrap_or(0)
}

// `read_be` at one width, here and below: the number fits its type, which is proved once, here, and not at each call.
pub fn read_u16(bytes: &[u8], at: usize) -> u16
    requires { at + 2 ≤ length bytes.now }
    ensures { result ≡ be_at bytes.now at 2 }
{
    read_be(bytes, at, 2) as u16
}

pub fn read_u32(bytes: &[u8], at: usize) -> u32
    requires { at + 4 ≤ length bytes.now }
    ensures { result ≡ be_at bytes.now at 4 }
{
    read_be(bytes, at, 4) as u32
}

// Writes the w lowest bytes of x from at on, and returns the place after them.
pub fn put_be(bytes: &mut [u8], at: usize, w: usize, x: u64) -> usize
    requires { at + w ≤ length bytes.old }
    ensures { (result ≡ at + w) × (bytes.new ≡ sets bytes.old at (be_bytes w x)) }
{
    let mut y = x;
    // By its place: of a slice that `iter_mut` went over a proof knows the length and no element.
    for i in 0..w {
        bytes[at + (w - 1 - i)] = (y % 256) as u8;
        y = y / 256;
    }
    at + w
}

// The bits of x; of a NaN, the one pattern that the definition names.
#[tactic(auto, using(crate::proofs::Laws::nan_pattern))]
pub fn bits_of(x: f64) -> u64
    ensures { result ≡ to_bits binary64 x }
{
    if x.is_nan() {
        0x7FF8_0000_0000_0000
    } else {
        f64::to_bits(x)
    }
}

// The number that a pattern stands for, NaN for each NaN's pattern.
pub fn f64_of(n: u64) -> f64
    ensures { result ≡ of_bits binary64 n }
{
    if n % 0x8000_0000_0000_0000 <= 0x7FF0_0000_0000_0000 {
        f64::from_bits(n)
    } else {
        f64::NAN
    }
}

#[tactic(auto, unfolding(crate::specs::Bytes::f64_of))]
pub fn read_f64(bytes: &[u8], at: usize) -> f64
    requires { at + 8 ≤ length bytes.now }
    ensures { result ≡ f64_at bytes.now at }
{
    f64_of(read_be(bytes, at, 8))
}

#[tactic(auto, unfolding(crate::specs::Bytes::f64_bytes))]
pub fn put_f64(bytes: &mut [u8], at: usize, x: f64) -> usize
    requires { at + 8 ≤ length bytes.old }
    ensures { (result ≡ at + 8) × (bytes.new ≡ sets bytes.old at (f64_bytes x)) }
{
    put_be(bytes, at, 8, bits_of(x))
}

// The k-th of the f64 that stand one after the other from a place on.
pub fn nth_f64(bytes: &[u8], from: usize, k: usize) -> f64
    requires { from + 8 * k + 8 ≤ length bytes.now }
    ensures { result ≡ nth_f64 bytes.now from k }
{
    read_f64(bytes, from + 8 * k)
}

// `put_be` at one width, here and below: a trait with a width and its laws for each type would be longer than these.
pub fn put_u8(bytes: &mut [u8], at: usize, x: u8) -> usize
    requires { at + 1 ≤ length bytes.old }
    ensures { (result ≡ at + 1) × (bytes.new ≡ sets bytes.old at (be_bytes 1 x)) }
{
    put_be(bytes, at, 1, x as u64)
}

pub fn put_u32(bytes: &mut [u8], at: usize, x: u32) -> usize
    requires { at + 4 ≤ length bytes.old }
    ensures { (result ≡ at + 4) × (bytes.new ≡ sets bytes.old at (be_bytes 4 x)) }
{
    put_be(bytes, at, 4, x as u64)
}

// Copies bytes to a place, and returns the place after them. Byte by byte: with `copy_from_slice` the archive for C asks for `memmove` too.
pub fn put_bytes(bytes: &mut [u8], at: usize, src: &[u8]) -> usize
    requires { at + length src.now ≤ length bytes.old }
    ensures { (result ≡ at + length src.now) × (bytes.new ≡ sets bytes.old at src.now) }
{
    for (i, byte) in src.iter().enumerate() {
        bytes[at + i] = *byte;
    }
    at + src.len()
}
