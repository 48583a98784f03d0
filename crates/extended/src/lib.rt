// The extended math gates: Abs, Min, Max, Clamp, Sign, Negate, ModuloFloored, Round, Floor, Ceil and MathSqrt.
#![tactic(auto)]

ghost use Rattle.std.specs.Prelude.{◌≡◌, None, MatchOption, cond};
ghost use Rattle.std.specs.Float.Ieee.{is_nan};
ghost use Rattle.conversions.specs.Conversions.{as_float_of};
ghost use Rattle.extended.specs.Extended.{given_finite, abs_float, abs_of, min_operands, max_operands, clamp_int, clamp_float, clamp_floats, clamp_of, sign_float, sign_of, negate_of, modulo_floored, modulo_floored_of, round_gate, floor_gate, ceil_gate, sqrt_gate, OnFloats, OnNumbers};
ghost use Rattle.extended.specs.Extremes as Extremes;
ghost use Rattle.extended.specs.Extremes.{follows, minimum_number, maximum_number, Extreme};

use conversions::{as_float, as_int, given_int, only_int};
use value::{Operand, Value};

// ---- A rule of one operand or two, as they are read

// What f gives of an operand that is read as a float.
fn on_float<F: Fn(f64) -> Option<Value>>(a: Operand, f: F) -> Option<Value>
    requires { F.IsAlwaysCallable f }
    ensures { MatchOption (as_float_of a) (result ≡ None) (λ x. F.post f x result) }
{
    let Some(x) = as_float(a) else {
        return None;
    };
    f(x)
}

// .. of two operands.
fn on_floats<F: Fn(f64, f64) -> Option<Value>>(a: Operand, b: Operand, f: F) -> Option<Value>
    requires { F.IsAlwaysCallable f }
    ensures { OnFloats a b (λ x y. F.post f x y result) result }
{
    let Some(x) = as_float(a) else {
        return None;
    };
    let Some(y) = as_float(b) else {
        return None;
    };
    f(x, y)
}

// What `ints` gives of two operands that are both read as whole numbers, else what `floats` gives of them.
fn on_numbers<I, F>(a: Operand, b: Operand, ints: I, floats: F) -> Option<Value>
where
    I: Fn(i64, i64) -> Option<Value>,
    F: Fn(f64, f64) -> Option<Value>,
    requires ints { I.IsAlwaysCallable ints }
    requires floats { F.IsAlwaysCallable floats }
    ensures { OnNumbers a b (λ m n. I.post ints m n result) (λ x y. F.post floats x y result) result }
{
    if let Some(m) = as_int(a)
        && let Some(n) = as_int(b)
    {
        return ints(m, n);
    }
    on_floats(a, b, floats)
}

#[tactic(auto, unfolding(crate::specs::Extended::given_finite))]
fn finite(x: f64) -> Option<Value>
    ensures { result ≡ given_finite x }
{
    ieee::is_finite(x).then_some(Value::Float(x))
}

// ---- The gates

fn abs_float(x: f64) -> f64
    ensures { result ≡ abs_float x }
{
    if ieee::is_sign_negative(x) { -x } else { x }
}

#[tactic(auto, unfolding(crate::specs::Extended::on_int_else))]
pub fn abs(a: Operand) -> Option<Value>
    ensures { result ≡ abs_of a }
{
    if let Some(n) = as_int(a) {
        return given_int(whole::checked_abs(n));
    }
    on_float(a, |x| finite(abs_float(x)))
}

// Whether x is below y, where -0.0 is below 0.0.
#[tactic(auto, unfolding(crate::specs::Extremes::precedes))]
fn precedes(x: f64, y: f64) -> bool
    ensures { result ≡ Extremes.precedes x y }
{
    x < y || (x == y && ieee::is_sign_negative(x) & !ieee::is_sign_negative(y))
}

// y where it is ahead of x, or x is a NaN, which alone differs from itself.
#[tactic(auto, using(crate::proofs::Laws::nan_test))]
fn chosen(x: f64, y: f64, ahead: bool) -> f64
    ensures { result ≡ cond (is_nan x) y (cond ahead y x) }
{
    if x != x || ahead { y } else { x }
}

fn min_float(x: f64, y: f64) -> f64
    ensures result { result ≡ minimum_number x y }
    ensures least { Extreme Extremes.precedes x y result }
    ensures swapped { result ≡ minimum_number y x }
{
    chosen(x, y, precedes(y, x))
}

fn max_float(x: f64, y: f64) -> f64
    ensures result { result ≡ maximum_number x y }
    ensures greatest { Extreme follows x y result }
    ensures swapped { result ≡ maximum_number y x }
{
    chosen(x, y, precedes(x, y))
}

pub fn min(a: Operand, b: Operand) -> Option<Value>
    ensures result { result ≡ min_operands a b }
    ensures swapped { result ≡ min_operands b a }
{
    on_numbers(
        a,
        b,
        |m, n| Some(Value::Int(whole::min(m, n))),
        |x, y| finite(min_float(x, y)),
    )
}

pub fn max(a: Operand, b: Operand) -> Option<Value>
    ensures result { result ≡ max_operands a b }
    ensures swapped { result ≡ max_operands b a }
{
    on_numbers(
        a,
        b,
        |m, n| Some(Value::Int(whole::max(m, n))),
        |x, y| finite(max_float(x, y)),
    )
}

fn clamp_int(n: i64, lo: i64, hi: i64) -> i64
    ensures { result ≡ clamp_int n lo hi }
{
    whole::min(whole::max(n, lo), hi)
}

fn clamp_float(x: f64, lo: f64, hi: f64) -> f64
    ensures { result ≡ clamp_float x lo hi }
{
    min_float(max_float(x, lo), hi)
}

#[tactic(auto, unfolding(crate::specs::Extended::on_float))]
fn clamp_floats(a: Operand, b: Operand, c: Operand) -> Option<Value>
    ensures { result ≡ clamp_floats a b c }
{
    let Some(x) = as_float(a) else {
        return None;
    };
    let Some(lo) = as_float(b) else {
        return None;
    };
    let Some(hi) = as_float(c) else {
        return None;
    };
    finite(clamp_float(x, lo, hi))
}

#[tactic(auto, unfolding(crate::specs::Extended::on_int_else))]
pub fn clamp(a: Operand, b: Operand, c: Operand) -> Option<Value>
    ensures { result ≡ clamp_of a b c }
{
    if let Some(n) = as_int(a)
        && let Some(lo) = as_int(b)
        && let Some(hi) = as_int(c)
    {
        return Some(Value::Int(clamp_int(n, lo, hi)));
    }
    clamp_floats(a, b, c)
}

fn sign_float(x: f64) -> f64
    ensures { result ≡ sign_float x }
{
    if x > 0.0 {
        1.0
    } else if x < 0.0 {
        -1.0
    } else {
        0.0
    }
}

pub fn sign(a: Operand) -> Option<Value>
    ensures { result ≡ sign_of a }
{
    on_float(a, |x| Some(Value::Float(sign_float(x))))
}

#[tactic(auto, unfolding(crate::specs::Extended::on_int_else))]
pub fn negate(a: Operand) -> Option<Value>
    ensures { result ≡ negate_of a }
{
    if let Some(n) = only_int(a) {
        return given_int(whole::checked_neg(n));
    }
    on_float(a, |x| finite(-x))
}

fn modulo_floored_float(x: f64, y: f64) -> f64
    ensures { result ≡ modulo_floored x y }
{
    x - y * ieee::floor(x / y)
}

pub fn modulo_floored(a: Operand, b: Operand) -> Option<Value>
    ensures { result ≡ modulo_floored_of a b }
{
    on_floats(a, b, |x, y| finite(modulo_floored_float(x, y)))
}

pub fn round(a: Operand) -> Option<Value>
    ensures { result ≡ round_gate a }
{
    on_float(a, |x| Some(Value::Float(ieee::round(x))))
}

pub fn floor(a: Operand) -> Option<Value>
    ensures { result ≡ floor_gate a }
{
    on_float(a, |x| Some(Value::Float(ieee::floor(x))))
}

pub fn ceil(a: Operand) -> Option<Value>
    ensures { result ≡ ceil_gate a }
{
    on_float(a, |x| Some(Value::Float(ieee::ceil(x))))
}

pub fn sqrt(a: Operand) -> Option<Value>
    ensures { result ≡ sqrt_gate a }
{
    on_float(a, |x| root::float::sqrt(x).map(Value::Float))
}
