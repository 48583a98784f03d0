// Gate cases, the remainder and the root of floats for C and other languages: the functions of gate_cases, exported.
#![tactic(auto)]

ghost use Rattle.std.specs.Prelude.{◌≡◌};
ghost use Rattle.std.specs.Float.Ieee as Ieee;
ghost use Rattle.std.specs.Float.{binary64};
ghost use Rattle.gate_cases.specs.Cases.{given_of, answer_bytes, or_nan};
ghost use Rattle.root.specs.Sqrt.{sqrt_of};

use gate_cases::{CASE_SIZE, OPERAND_SIZE};

#[unsafe(no_mangle)]
pub extern "C" fn mezburiko_gate_case(case: &[u8; CASE_SIZE], answer: &mut [u8; OPERAND_SIZE])
    ensures { answer.new ≡ answer_bytes (given_of case.now) }
{
    gate_cases::mezburiko_gate_case(case, answer)
}

#[unsafe(no_mangle)]
pub extern "C" fn mezburiko_remainder(x: f64, y: f64) -> f64
    ensures { result ≡ Ieee.rem binary64 x y }
{
    gate_cases::mezburiko_remainder(x, y)
}

#[unsafe(no_mangle)]
pub extern "C" fn mezburiko_sqrt(x: f64) -> f64
    ensures { result ≡ or_nan (sqrt_of x) }
{
    gate_cases::mezburiko_sqrt(x)
}
