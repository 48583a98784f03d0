// The square root of a float, in whole numbers.
ghost use Rattle.std.specs.Prelude.{◌≡◌, ◌+◌, ◌*◌, ◌^◌, ◌≤◌, ◌<◌, Float};
ghost use Rattle.std.specs.Float.{binary64};
ghost use Rattle.std.specs.Float.Ieee.{prec, emax, of_bits};
ghost use Rattle.root.specs.WholeRoot.{whole_root_of};
ghost use Rattle.root.specs.Sqrt.{rounded_root, sqrt_of, NearestRoot};
ghost use Rattle.root.specs.Steps.{EvenShift};

use crate::{near_root, root_at};

// 2^22: a root has 22 binary digits beyond those of a whole root.
const PLACES: u64 = 0x0040_0000;
// What stands beside exponent and shift in the exponent of a root, which is half of it all: 2^1074 units are 1.0, the places
// squared are 44 digits, and of the root's 54 digits one is rounded away.
const EXPONENT: u64 = 1074 - 44 + 2;

// The whole root of n with 22 binary digits more, that of n * 4^22.
fn root_to_places(n: u64) -> u64
    requires { 2 ^ 62 ≤ n }
    ensures { result ≡ whole_root_of (n * 4 ^ 22) }
{
    let high = root_at(n, near_root(n));
    let double = 2 * high.root;
    let brought = high.remainder * PLACES;
    let digits = brought / double;
    let over = brought % double * PLACES;
    let root = high.root * PLACES + digits;
    if digits * digits <= over {
        root
    } else {
        root - 1
    }
}

// How far the significand moves up: it comes to 2^62 at least, and what is left of the exponent is even.
fn even_shift(significand: u64, exponent: u64) -> u64
    requires { (0 < significand) × (significand < 2 ^ prec binary64) }
    ensures { EvenShift significand exponent result }
{
    let zeros = u64::from(significand.leading_zeros());
    zeros - (exponent % 2 + zeros) % 2
}

// The bits of the root of significand * 2^exponent units.
fn root_bits(significand: u64, exponent: u64) -> u64
    requires { (0 < significand) × (significand < 2 ^ prec binary64) × (exponent < 2 * emax binary64) }
    ensures { of_bits binary64 result ≡ rounded_root (significand * 2 ^ exponent) }
{
    let shift = even_shift(significand, exponent);
    let root = root_to_places(significand << shift);
    (exponent + EXPONENT - shift) / 2 * ieee::LEADING + (root + 1) / 2
}

// The square root of a float that is finite and not below zero.
pub fn sqrt(x: f64) -> Option<f64>
    ensures root { result ≡ sqrt_of x }
    ensures nearest { (y : Float) → result ≡ Some y → NearestRoot x y }
    ensures whenever { (y : Float) → NearestRoot x y → result ≡ Some y }
{
    if !ieee::is_finite(x) {
        return None;
    }
    let parts = ieee::decompose(x);
    if parts.significand == 0 {
        return Some(x);
    }
    if parts.negative {
        return None;
    }
    Some(ieee::from_bits(root_bits(parts.significand, parts.exponent)))
}
