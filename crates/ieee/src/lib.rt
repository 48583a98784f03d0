// IEEE 754 binary64: the bits, the sign and the parts of a float, rounding to an integer, finiteness, and the remainder.
#![tactic(auto)]

ghost use Rattle.std.specs.Prelude.{◌≡◌, ◌*◌, ◌%◌, ◌^◌, ◌<◌, true, false};
ghost use Rattle.std.specs.Float.Ieee as Ieee;
ghost use Rattle.std.specs.Float.{binary64};
ghost use Rattle.std.specs.Float.Ieee.{prec, emax, low};
ghost use Rattle.std.specs.Float.Ieee.Exact.{HasValue};
ghost use Rattle.ieee.specs.Bits.{bits_of};
ghost use Rattle.ieee.specs.Finite.{finite_of, sanitize_of};
ghost use Rattle.ieee.specs.Integral.{round_to_integral, floor_of, ceil_of, round_of};
ghost use Rattle.ieee.specs.Parts.{PartsOf};
ghost use Rattle.ieee.specs.Signs.{is_sign_minus};

// Every bit but the sign.
const MAGNITUDE: u64 = 0x7fff_ffff_ffff_ffff;
// The bits of infinity. Above them are those of the NaNs.
const INFINITY: u64 = 0x7ff0_0000_0000_0000;
// The bits that a NaN is written as.
const NAN: u64 = 0x7ff8_0000_0000_0000;
// The weight of the sign.
const SIGN: u64 = 0x8000_0000_0000_0000;
// The weight of the exponent's field, which is the leading digit's.
pub const LEADING: u64 = 0x0010_0000_0000_0000;
// 2^51 of the smallest values is the largest power of two without a leading digit.
const SUBNORMAL: u64 = 51;
// How many binary digits a u64 has beside a significand's 53.
const SPARE: u64 = 11;
// 2^10, by which a product is taken apart.
const DIGITS: u64 = 1024;
// 2^52. No float of this magnitude or a larger one has a fraction.
const NO_FRACTION: f64 = 4503599627370496.0;

// The float of a bit pattern. Every NaN pattern gives the one NaN; any other is the pattern of its float alone.
pub fn from_bits(bits: u64) -> f64
    ensures value { result ≡ Ieee.of_bits binary64 bits }
    ensures back { Ieee.is_nan result ≡ false → bits_of result ≡ bits }
{
    if bits & MAGNITUDE > INFINITY {
        f64::NAN
    } else {
        f64::from_bits(bits)
    }
}

// The bit pattern of a float.
pub fn to_bits(x: f64) -> u64
    ensures { result ≡ bits_of x }
{
    if x.is_nan() { NAN } else { x.to_bits() }
}

// Whether x has the negative sign, -0.0 too. A NaN has none, whatever its bits.
pub fn is_sign_negative(x: f64) -> bool
    ensures { result ≡ is_sign_minus x }
{
    to_bits(x) >= SIGN
}

// How a magnitude is rounded to an integer: toward zero, away from zero, or to nearest with ties away from zero.
#[derive(Clone, Copy)]
pub enum Direction {
    TowardZero,
    AwayFromZero,
    TiesToAway,
}

// A positive float rounded toward zero. `negative` is the direction of negative floats, which plays no part.
fn toward_zero(y: f64) -> f64
    requires { Ieee.lt (Ieee.of_bits binary64 0) y ≡ true }
    ensures { (negative : Direction) → result ≡ round_to_integral Direction.TowardZero negative y }
{
    if y < NO_FRACTION {
        std::num::truncating_f64_to_u64(y) as f64
    } else {
        y
    }
}

// A positive float rounded away from zero.
fn away_from_zero(y: f64) -> f64
    requires { Ieee.lt (Ieee.of_bits binary64 0) y ≡ true }
    ensures { (negative : Direction) → result ≡ round_to_integral Direction.AwayFromZero negative y }
{
    let t = toward_zero(y);
    if t < y { t + 1.0 } else { t }
}

// A positive float rounded to nearest, ties away from zero.
fn ties_to_away(y: f64) -> f64
    requires { Ieee.lt (Ieee.of_bits binary64 0) y ≡ true }
    ensures { (negative : Direction) → result ≡ round_to_integral Direction.TiesToAway negative y }
{
    let t = toward_zero(y);
    if y < t + 0.5 { t } else { away_from_zero(y) }
}

// A positive float rounded in a direction.
fn round_positive(y: f64, direction: Direction) -> f64
    requires { Ieee.lt (Ieee.of_bits binary64 0) y ≡ true }
    ensures { (negative : Direction) → result ≡ round_to_integral direction negative y }
{
    match direction {
        Direction::TowardZero => toward_zero(y),
        Direction::AwayFromZero => away_from_zero(y),
        Direction::TiesToAway => ties_to_away(y),
    }
}

// A float rounded to an integer, in one direction above zero and in another below.
fn round_to_integral(x: f64, positive: Direction, negative: Direction) -> f64
    ensures { result ≡ round_to_integral positive negative x }
{
    if x > 0.0 {
        round_positive(x, positive)
    } else if x < 0.0 {
        -round_positive(-x, negative)
    } else {
        x
    }
}

// The nearest integer that is not above x.
pub fn floor(x: f64) -> f64
    ensures { result ≡ floor_of x }
{
    round_to_integral(x, Direction::TowardZero, Direction::AwayFromZero)
}

// The nearest integer that is not below x.
pub fn ceil(x: f64) -> f64
    ensures { result ≡ ceil_of x }
{
    round_to_integral(x, Direction::AwayFromZero, Direction::TowardZero)
}

// The nearest integer, half away from zero.
pub fn round(x: f64) -> f64
    ensures { result ≡ round_of x }
{
    round_to_integral(x, Direction::TiesToAway, Direction::TiesToAway)
}

// Whether x is neither a NaN nor an infinity: zero times one of these is a NaN.
pub fn is_finite(x: f64) -> bool
    ensures { result ≡ finite_of x }
{
    x * 0.0 == 0.0
}

// x, or 0 for a NaN or an infinity.
pub fn sanitize(x: f64) -> f64
    ensures { result ≡ sanitize_of x }
{
    if is_finite(x) { x } else { 0.0 }
}

// ---- Floats as whole numbers, and the remainder

// A finite float: significand * 2^exponent of the smallest values.
#[derive(Clone, Copy)]
pub struct Parts {
    pub negative: bool,
    pub significand: u64,
    pub exponent: u64,
}

pub fn decompose(x: f64) -> Parts
    requires { finite_of x ≡ true }
    ensures { PartsOf x result.negative result.significand result.exponent }
{
    let bits = to_bits(x);
    let negative = bits >= SIGN;
    let field = bits % SIGN / LEADING;
    let digits = bits % LEADING;
    let (significand, exponent) = if field == 0 {
        (digits, 0)
    } else {
        (LEADING + digits, field - 1)
    };
    Parts {
        negative,
        significand,
        exponent,
    }
}

// 2^exponent of the smallest values. Past the subnormals it is a leading digit, which the exponent's field says.
fn power(exponent: u64) -> f64
    requires { exponent < 2 * emax binary64 }
    ensures { HasValue result false (2 ^ exponent) (2 ^ low binary64) }
{
    if exponent <= SUBNORMAL {
        from_bits(1 << exponent)
    } else {
        from_bits((exponent - SUBNORMAL) * LEADING)
    }
}

// significand * 2^exponent of the smallest values.
fn scaled(significand: u64, exponent: u64) -> f64
    requires { (significand < 2 ^ prec binary64) × (exponent < 2 * emax binary64) }
    ensures { result ≡ Ieee.round binary64 false (significand * 2 ^ exponent) (2 ^ low binary64) }
{
    significand as f64 * power(exponent)
}

// x * y % b, by 10 binary digits of y at a time, so that both summands stay below 2^63.
fn mul_mod(x: u64, y: u64, b: u64) -> u64
    requires { (x < 2 ^ prec binary64) × (0 < b) × (b < 2 ^ prec binary64) }
    ensures { result ≡ x * y % b }
{
    if y < DIGITS {
        (x * y) % b
    } else {
        (mul_mod(x, y / DIGITS, b) * DIGITS + x * (y % DIGITS)) % b
    }
}

// 2^k % b, by squares.
fn pow_mod(k: u64, b: u64) -> u64
    requires { (0 < b) × (b < 2 ^ prec binary64) }
    ensures { result ≡ 2 ^ k % b }
{
    if k < 64 {
        (1 << k) % b
    } else {
        let half = pow_mod(k / 2, b);
        mul_mod(half, half << (k % 2), b)
    }
}

// a * 2^k % b.
fn shl_mod(a: u64, b: u64, k: u64) -> u64
    requires { (a < 2 ^ prec binary64) × (0 < b) × (b < 2 ^ prec binary64) }
    ensures { result ≡ a * 2 ^ k % b }
{
    if k <= SPARE {
        (a << k) % b
    } else {
        mul_mod(a, pow_mod(k, b), b)
    }
}

// Both as whole numbers of the smallest values. Where x has the smaller exponent, y has its leading digit and is the larger in size.
fn finite_remainder(x: f64, y: f64) -> f64
    requires { (finite_of x ≡ true) × (finite_of y ≡ true) }
    ensures { result ≡ Ieee.rem binary64 x y }
{
    let a = decompose(x);
    let b = decompose(y);
    if b.significand == 0 {
        return f64::NAN;
    }
    if a.exponent < b.exponent {
        return x;
    }
    let r = shl_mod(a.significand, b.significand, a.exponent - b.exponent);
    let magnitude = scaled(r, b.exponent);
    if a.negative { -magnitude } else { magnitude }
}

// The truncated remainder: x - n * y, where n is x / y cut to a whole number.
pub fn remainder(x: f64, y: f64) -> f64
    ensures { result ≡ Ieee.rem binary64 x y }
{
    if !is_finite(x) {
        return f64::NAN;
    }
    if is_finite(y) {
        return finite_remainder(x, y);
    }
    if y.is_nan() { y } else { x }
}
