// How the gates read an operand: as a truth, a whole number or a float.
#![tactic(auto)]

ghost use Rattle.std.specs.Prelude.{◌≡◌};
ghost use Rattle.conversions.specs.Conversions.{truthy_value, truthy_of, scalar_of, math_in_of, as_float_of, as_int_of, only_int_of, given_int};

use text::Text;
use value::{Operand, Value};

// How Add to Modulo read an operand: as a whole number or as a float.
#[derive(Clone, Copy)]
pub enum MathIn {
    I(i64),
    F(f64),
}

pub fn truthy_value(v: Value) -> bool
    ensures { result ≡ truthy_value v }
{
    match v {
        Value::Int(n) => !whole::is_zero(n),
        Value::Float(x) => ieee::sanitize(x) != 0.0,
        Value::Bool(b) => b,
        Value::Text { low, high } => !Text { low, high }.is_false(),
        _ => false,
    }
}

pub fn truthy(a: Operand) -> bool
    ensures { result ≡ truthy_of a }
{
    let Some(v) = a else {
        return false;
    };
    truthy_value(v)
}

// The float of an operand for the order gates and beside a Vector, where the Rust has ord_num and broadcast_scalar.
pub fn scalar(a: Operand) -> Option<f64>
    ensures { result ≡ scalar_of a }
{
    let Some(v) = a else {
        return Some(0.0);
    };
    match v {
        Value::Int(n) => whole::int_as_f64(n),
        Value::Float(x) => Some(ieee::sanitize(x)),
        Value::Bool(b) => Some(f64::from(b)),
        _ => None,
    }
}

pub fn math_in(a: Operand) -> Option<MathIn>
    ensures { result ≡ math_in_of a }
{
    let Some(v) = a else {
        return Some(MathIn::I(0));
    };
    match v {
        Value::Int(n) => Some(MathIn::I(n)),
        Value::Float(x) => Some(MathIn::F(ieee::sanitize(x))),
        Value::Bool(b) => Some(MathIn::I(whole::int_of_bool(b))),
        _ => None,
    }
}

pub fn as_float(a: Operand) -> Option<f64>
    ensures { result ≡ as_float_of a }
{
    let Some(v) = a else {
        return None;
    };
    match v {
        Value::Int(n) => whole::int_as_f64(n),
        Value::Float(x) => Some(x),
        _ => None,
    }
}

pub fn as_int(a: Operand) -> Option<i64>
    ensures { result ≡ as_int_of a }
{
    let Some(v) = a else {
        return None;
    };
    match v {
        Value::Int(n) => Some(n),
        Value::Bool(b) => Some(whole::int_of_bool(b)),
        _ => None,
    }
}

// An operand that is an Int.
pub fn only_int(a: Operand) -> Option<i64>
    ensures { result ≡ only_int_of a }
{
    let Some(v) = a else {
        return None;
    };
    match v {
        Value::Int(n) => Some(n),
        _ => None,
    }
}

pub fn given_int(n: Option<i64>) -> Option<Value>
    ensures { result ≡ given_int n }
{
    n.map(Value::Int)
}
