// Gate cases as bytes, for runs beside the Rust; the remainder and the root of floats, for runs beside the C library's.
#![tactic(auto)]

ghost use Rattle.std.specs.Prelude.{◌≡◌, ◌+◌, ◌≤◌, length};
ghost use Rattle.std.specs.Float.Ieee as Ieee;
ghost use Rattle.std.specs.Float.{binary64};
ghost use Rattle.ir.specs.Variants.{text_variant};
ghost use Rattle.gate_cases.specs.Cases.{variant_kind, operand_size, operand_at, given_of, zeros, answer_bytes, or_nan};
ghost use Rattle.root.specs.Sqrt.{sqrt_of};

use encoding::{numbers, values, words};
use ir::{kind, variant};
use value::{Operand, Value};

// How many bytes an operand has: its variant and its value. What a gate gives has as many.
pub const OPERAND_SIZE: usize = 33;

// .. and a case: its class and three operands.
pub const CASE_SIZE: usize = 1 + 3 * OPERAND_SIZE;

// The record kind of a variant.
fn kind_of(variant: u8) -> u8
    requires { variant ≤ text_variant }
    ensures { result ≡ variant_kind variant }
{
    if variant == variant::TEXT {
        kind::TEXT
    } else {
        variant + 2
    }
}

// The operand at an offset.
fn operand_at(case: &[u8], at: usize) -> Operand
    requires { at + operand_size ≤ length case.now }
    ensures { result ≡ operand_at case.now at }
{
    match case[at] {
        variant @ 1..=variant::TEXT => Some(values::read_value(kind_of(variant), case, at + 1)),
        _ => None,
    }
}

// What a gate gives, into an answer of zeros.
fn write_given(answer: &mut [u8; OPERAND_SIZE], given: Option<Value>)
    requires { answer.old ≡ zeros operand_size }
    ensures { answer.new ≡ answer_bytes given }
{
    if let Some(v) = given {
        numbers::write_byte(answer, 0, value::variant_of(v));
        values::write_bytes(answer, 1, values::kind_of(v), words::words_of(v));
    }
}

// What the gate of a case gives.
pub fn mezburiko_gate_case(case: &[u8; CASE_SIZE], answer: &mut [u8; OPERAND_SIZE])
    ensures { answer.new ≡ answer_bytes (given_of case.now) }
{
    *answer = [0; OPERAND_SIZE];
    let a = operand_at(case, 1);
    let b = operand_at(case, 1 + OPERAND_SIZE);
    let c = operand_at(case, 1 + 2 * OPERAND_SIZE);
    write_given(answer, semantics::eval_in(case[0], a, b, c));
}

// The remainder of two floats.
pub fn mezburiko_remainder(x: f64, y: f64) -> f64
    ensures { result ≡ Ieee.rem binary64 x y }
{
    ieee::remainder(x, y)
}

// The root of a float; a NaN where it has none.
pub fn mezburiko_sqrt(x: f64) -> f64
    ensures { result ≡ or_nan (sqrt_of x) }
{
    root::float::sqrt(x).unwrap_or(f64::NAN)
}
