// The gates Add, Subtract, Multiply, Divide and Modulo: on whole numbers, on floats and, part by part, on Vectors.
#![tactic(auto)]

ghost use Rattle.std.specs.Prelude.{◌≡◌};
ghost use Rattle.conversions.specs.Conversions.{scalar_of};
ghost use Rattle.arithmetic.specs.Arithmetic.{whole_op, float_op, mixed_signs, float_math, as_real, numbers_math, spread_scalar, is_vector, spread, finite_vector, vector_math, math_of};

use conversions::MathIn;
use value::{Operand, Value};

#[derive(Clone, Copy)]
pub enum MathOp {
    Add,
    Subtract,
    Multiply,
    Divide,
    Modulo,
}

// The parts of a Vector.
#[derive(Clone, Copy)]
pub struct Vector {
    pub x: f64,
    pub y: f64,
    pub z: f64,
}

// ---- One operation on two numbers

fn whole_op(op: MathOp, a: i64, b: i64) -> Option<i64>
    ensures { result ≡ whole_op op a b }
{
    match op {
        MathOp::Add => whole::checked_add(a, b),
        MathOp::Subtract => whole::checked_sub(a, b),
        MathOp::Multiply => whole::checked_mul(a, b),
        MathOp::Divide => whole::div(a, b),
        MathOp::Modulo => whole::rem(a, b),
    }
}

fn component_op(op: MathOp, x: f64, y: f64) -> f64
    ensures { result ≡ float_op op x y }
{
    match op {
        MathOp::Add => x + y,
        MathOp::Subtract => x - y,
        MathOp::Multiply => x * y,
        MathOp::Divide => x / y,
        MathOp::Modulo => ieee::remainder(x, y),
    }
}

// ---- Numbers

fn mixed_signs(x: f64, y: f64, remainder: f64) -> bool
    ensures { result ≡ mixed_signs x y remainder }
{
    ((x < 0.0) != (y < 0.0)) & (remainder != 0.0) & ieee::is_finite(remainder)
}

// Modulo: the truncated remainder, None by the sign rule.
#[tactic(auto, unfolding(crate::specs::Arithmetic::float_math))]
fn modulo(x: f64, y: f64) -> Option<Value>
    ensures { result ≡ float_math MathOp.Modulo x y }
{
    let remainder = ieee::remainder(x, y);
    if mixed_signs(x, y, remainder) {
        None
    } else {
        Some(Value::Float(remainder))
    }
}

#[tactic(auto, unfolding(crate::specs::Arithmetic::float_math))]
fn float_math(op: MathOp, x: f64, y: f64) -> Option<Value>
    ensures { result ≡ float_math op x y }
{
    match op {
        MathOp::Modulo => modulo(x, y),
        _ => Some(Value::Float(component_op(op, x, y))),
    }
}

fn to_f(a: MathIn) -> Option<f64>
    ensures { result ≡ as_real a }
{
    match a {
        MathIn::I(n) => whole::int_as_f64(n),
        MathIn::F(x) => Some(x),
    }
}

fn numbers_math(op: MathOp, a: Option<MathIn>, b: Option<MathIn>) -> Option<Value>
    ensures { result ≡ numbers_math op a b }
{
    let Some(a) = a else {
        return None;
    };
    let Some(b) = b else {
        return None;
    };
    if let (MathIn::I(m), MathIn::I(n)) = (a, b) {
        return conversions::given_int(whole_op(op, m, n));
    }
    let Some(x) = to_f(a) else {
        return None;
    };
    let Some(y) = to_f(b) else {
        return None;
    };
    float_math(op, x, y)
}

// ---- Vectors

fn is_vector(a: Operand) -> bool
    ensures { result ≡ is_vector a }
{
    matches!(a, Some(Value::Vector { .. }))
}

// A scalar stands for all three parts.
fn broadcast_scalar(a: Operand) -> Option<Vector>
    ensures { result ≡ spread_scalar (scalar_of a) }
{
    let Some(s) = conversions::scalar(a) else {
        return None;
    };
    Some(Vector { x: s, y: s, z: s })
}

// The parts that an operand has beside a Vector.
fn spread(a: Operand) -> Option<Vector>
    ensures { result ≡ spread a }
{
    let Some(Value::Vector { x, y, z }) = a else {
        return broadcast_scalar(a);
    };
    Some(Vector {
        x: ieee::sanitize(x),
        y: ieee::sanitize(y),
        z: ieee::sanitize(z),
    })
}

#[tactic(auto, unfolding(crate::specs::Arithmetic::finite_vector))]
fn finite3(x: f64, y: f64, z: f64) -> Option<Value>
    ensures { result ≡ finite_vector x y z }
{
    (ieee::is_finite(x) & ieee::is_finite(y) & ieee::is_finite(z)).then_some(Value::Vector {
        x,
        y,
        z,
    })
}

fn composite_math(op: MathOp, a: Option<Vector>, b: Option<Vector>) -> Option<Value>
    ensures { result ≡ vector_math op a b }
{
    let Some(v) = a else {
        return None;
    };
    let Some(w) = b else {
        return None;
    };
    finite3(
        component_op(op, v.x, w.x),
        component_op(op, v.y, w.y),
        component_op(op, v.z, w.z),
    )
}

// ---- The gates

#[tactic(auto, unfolding(crate::specs::Arithmetic::math_of))]
pub fn math(op: MathOp, a: Operand, b: Operand) -> Option<Value>
    ensures { result ≡ math_of op a b }
{
    if is_vector(a) | is_vector(b) {
        return composite_math(op, spread(a), spread(b));
    }
    numbers_math(op, conversions::math_in(a), conversions::math_in(b))
}

// .. of two whole numbers.
pub fn whole_math(op: MathOp, a: i64, b: i64) -> Option<Value>
    ensures { result ≡ numbers_math op (Some (MathIn.I a)) (Some (MathIn.I b)) }
{
    conversions::given_int(whole_op(op, a, b))
}
