// Equality and order of two operands, and the logical gates.
#![tactic(auto)]

ghost use Rattle.std.specs.Prelude.{◌≡◌, ◌<◌, cond};
ghost use Rattle.std.specs.List.{list_all, zip};
ghost use Rattle.std.specs.Float.Ieee as Ieee;
ghost use Rattle.std.specs.Int.Signed.{lt_z, le_z};
ghost use Rattle.whole.specs.Compare.{eq_z};
ghost use Rattle.whole.specs.Convert.{int_of_bool};
ghost use Rattle.value.specs.Variants.{variant_of};
ghost use Rattle.conversions.specs.Conversions.{scalar_of};
ghost use Rattle.comparison.specs.Comparison.{eq_s, eq_int_float, eq_composite, eq_value, zero_like, or_zero_like, given, equal_of, not_equal_of, floats_by, swapped_if, less_of, less_or_equal_of, greater_of, greater_or_equal_of, logical_and_of, logical_or_of, logical_xor_of, logical_not_of, logical_nand_of, logical_nor_of};

use conversions::{only_int, scalar, truthy};
use ieee::sanitize;
use text::Text;
use value::{Operand, Value};
use whole::{int_as_f64, int_of_bool};

// ---- Equality

#[tactic(auto, unfolding(crate::specs::Comparison::eq_s))]
fn eq_sanitized(x: f64, y: f64) -> bool
    ensures { result ≡ eq_s x y }
{
    sanitize(x) == sanitize(y)
}

fn eq_int_float(x: i64, y: f64) -> Option<bool>
    ensures { result ≡ eq_int_float x y }
{
    let Some(x) = int_as_f64(x) else {
        return None;
    };
    Some(x == sanitize(y))
}

// Whether floats are equal, one by one.
fn eq_parts<const N: usize>(x: [f64; N], y: [f64; N]) -> bool
    ensures { result ≡ list_all (λ p. eq_s p.0 p.1) (zip x.entry y.entry) }
{
    x.iter().zip(&y).all(|(x, y)| eq_sanitized(*x, *y))
}

// A composite beside one of its kind, part by part.
fn eq_composite(a: Value, b: Value) -> Option<bool>
    requires { (3 < variant_of a) × (variant_of a < 8) }
    ensures { result ≡ eq_composite a b }
{
    match (a, b) {
        (Value::Vector { x, y, z }, Value::Vector { x: p, y: q, z: r }) => {
            Some(eq_parts([x, y, z], [p, q, r]))
        }
        (
            Value::Rotator { pitch, yaw, roll },
            Value::Rotator {
                pitch: p,
                yaw: y,
                roll: r,
            },
        ) => Some(eq_parts([pitch, yaw, roll], [p, y, r])),
        (
            Value::Quat { x, y, z, w },
            Value::Quat {
                x: p,
                y: q,
                z: r,
                w: s,
            },
        ) => Some(eq_parts([x, y, z, w], [p, q, r, s])),
        (
            Value::Color { r, g, b, a },
            Value::Color {
                r: p,
                g: q,
                b: c,
                a: d,
            },
        ) => Some(eq_parts([r, g, b, a], [p, q, c, d])),
        _ => None,
    }
}

fn eq_value(a: Value, b: Value) -> Option<bool>
    ensures { result ≡ eq_value a b }
{
    match (a, b) {
        (Value::Int(x), Value::Int(y)) => Some(whole::eq(x, y)),
        (Value::Float(x), Value::Float(y)) => Some(eq_sanitized(x, y)),
        (Value::Int(x), Value::Float(y)) | (Value::Float(y), Value::Int(x)) => eq_int_float(x, y),
        (Value::Int(x), Value::Bool(y)) | (Value::Bool(y), Value::Int(x)) => {
            Some(whole::eq(x, int_of_bool(y)))
        }
        (Value::Bool(x), Value::Bool(y)) => Some(x == y),
        (Value::Text { low, high }, Value::Text { low: l, high: h }) => {
            Some(Text { low, high }.equals(Text { low: l, high: h }))
        }
        // A text beside an Int is compared with its decimal form.
        (Value::Int(x), Value::Text { low, high }) | (Value::Text { low, high }, Value::Int(x)) => {
            Some(Text { low, high }.is_decimal(x))
        }
        (
            Value::Vector { .. } | Value::Rotator { .. } | Value::Quat { .. } | Value::Color { .. },
            _,
        ) => eq_composite(a, b),
        _ => None,
    }
}

// What an unwired operand counts as beside another.
fn default_for(other: Value) -> Value
    ensures { result ≡ zero_like other }
{
    match other {
        Value::Int(_) => Value::Int(0),
        Value::Float(_) => Value::Float(0.0),
        Value::Bool(_) => Value::Bool(false),
        Value::Vector { .. } => Value::Vector {
            x: 0.0,
            y: 0.0,
            z: 0.0,
        },
        Value::Rotator { .. } => Value::Rotator {
            pitch: 0.0,
            yaw: 0.0,
            roll: 0.0,
        },
        Value::Quat { .. } => Value::Quat {
            x: 0.0,
            y: 0.0,
            z: 0.0,
            w: 0.0,
        },
        Value::Color { .. } => Value::Color {
            r: 0.0,
            g: 0.0,
            b: 0.0,
            a: 0.0,
        },
        Value::Text { .. } => Value::Text { low: 0, high: 0 },
    }
}

// An operand as it counts beside another: where it is unwired, as the other's zero.
fn or_default(a: Operand, b: Operand) -> Operand
    ensures { result ≡ or_zero_like a b }
{
    match (a, b) {
        (None, Some(other)) => Some(default_for(other)),
        _ => a,
    }
}

// Equal, or NotEqual where `equal` is false.
pub fn equality(equal: bool, a: Operand, b: Operand) -> Option<Value>
    ensures { result ≡ cond equal (equal_of a b) (not_equal_of a b) }
{
    let (Some(x), Some(y)) = (or_default(a, b), or_default(b, a)) else {
        return None;
    };
    let Some(same) = eq_value(x, y) else {
        return None;
    };
    Some(Value::Bool(same == equal))
}

// ---- Order: two Ints exactly, else by float. Greater is Less of the two swapped: the numbers, once they are read

fn swap_if<N>(swapped: bool, x: N, y: N) -> (N, N)
    ensures { result ≡ cond swapped (y, x) (x, y) }
{
    if swapped { (y, x) } else { (x, y) }
}

fn order_floats(or_equal: bool, swapped: bool, a: Operand, b: Operand) -> Option<Value>
    ensures { result ≡ given (floats_by (swapped_if swapped (cond or_equal Ieee.le Ieee.lt)) (scalar_of a) (scalar_of b)) }
{
    let Some(x) = scalar(a) else {
        return None;
    };
    let Some(y) = scalar(b) else {
        return None;
    };
    let (x, y) = swap_if(swapped, x, y);
    Some(Value::Bool(if or_equal { x <= y } else { x < y }))
}

// Less, or LessOrEqual where `or_equal` holds; where `swapped` does, Greater or GreaterOrEqual.
pub fn order(or_equal: bool, swapped: bool, a: Operand, b: Operand) -> Option<Value>
    ensures { result ≡ cond swapped (cond or_equal (greater_or_equal_of a b) (greater_of a b)) (cond or_equal (less_or_equal_of a b) (less_of a b)) }
{
    if let Some(x) = only_int(a)
        && let Some(y) = only_int(b)
    {
        let (x, y) = swap_if(swapped, x, y);
        return Some(Value::Bool(if or_equal { x <= y } else { x < y }));
    }
    order_floats(or_equal, swapped, a, b)
}

// ---- Logic

#[tactic(auto, unfolding(crate::specs::Comparison::logical_and_of))]
pub fn logical_and(a: Operand, b: Operand) -> Option<Value>
    ensures { result ≡ logical_and_of a b }
{
    Some(Value::Bool(truthy(a) & truthy(b)))
}

#[tactic(auto, unfolding(crate::specs::Comparison::logical_or_of))]
pub fn logical_or(a: Operand, b: Operand) -> Option<Value>
    ensures { result ≡ logical_or_of a b }
{
    Some(Value::Bool(truthy(a) | truthy(b)))
}

#[tactic(auto, unfolding(crate::specs::Comparison::logical_xor_of))]
pub fn logical_xor(a: Operand, b: Operand) -> Option<Value>
    ensures { result ≡ logical_xor_of a b }
{
    Some(Value::Bool(truthy(a) != truthy(b)))
}

#[tactic(auto, unfolding(crate::specs::Comparison::logical_not_of))]
pub fn logical_not(a: Operand) -> Option<Value>
    ensures { result ≡ logical_not_of a }
{
    Some(Value::Bool(!truthy(a)))
}

#[tactic(auto, unfolding(crate::specs::Comparison::logical_nand_of))]
pub fn logical_nand(a: Operand, b: Operand) -> Option<Value>
    ensures { result ≡ logical_nand_of a b }
{
    Some(Value::Bool(!(truthy(a) & truthy(b))))
}

#[tactic(auto, unfolding(crate::specs::Comparison::logical_nor_of))]
pub fn logical_nor(a: Operand, b: Operand) -> Option<Value>
    ensures { result ≡ logical_nor_of a b }
{
    Some(Value::Bool(!(truthy(a) | truthy(b))))
}
