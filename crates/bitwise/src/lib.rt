// The bitwise gates, shifts and BitCount.
#![tactic(auto)]

ghost use Rattle.std.specs.Prelude.{◌≡◌, None, MatchOption};
ghost use Rattle.conversions.specs.Conversions.{as_int_of};
ghost use Rattle.bitwise.specs.Bitwise.{bitwise_and_of, bitwise_or_of, bitwise_xor_of, bitwise_not_of, bitwise_nand_of, bitwise_nor_of, bitwise_shift_left_of, bitwise_shift_right_of, bitwise_bit_count_of};

use conversions::{as_int, given_int};
use value::{Operand, Value};

// What f gives of an operand that is read as a whole number.
fn on_int<F: Fn(i64) -> Option<Value>>(a: Operand, f: F) -> Option<Value>
    requires { F.IsAlwaysCallable f }
    ensures { MatchOption (as_int_of a) (result ≡ None) (λ n. F.post f n result) }
{
    let Some(n) = as_int(a) else {
        return None;
    };
    f(n)
}

// .. of two operands.
fn on_ints<F: Fn(i64, i64) -> Option<Value>>(a: Operand, b: Operand, f: F) -> Option<Value>
    requires { F.IsAlwaysCallable f }
    ensures { MatchOption (as_int_of a) (result ≡ None) (λ m. MatchOption (as_int_of b) (result ≡ None) (λ n. F.post f m n result)) }
{
    let Some(m) = as_int(a) else {
        return None;
    };
    let Some(n) = as_int(b) else {
        return None;
    };
    f(m, n)
}

pub fn bitwise_and(a: Operand, b: Operand) -> Option<Value>
    ensures { result ≡ bitwise_and_of a b }
{
    on_ints(a, b, |m, n| Some(Value::Int(whole::and(m, n))))
}

pub fn bitwise_or(a: Operand, b: Operand) -> Option<Value>
    ensures { result ≡ bitwise_or_of a b }
{
    on_ints(a, b, |m, n| Some(Value::Int(whole::or(m, n))))
}

pub fn bitwise_xor(a: Operand, b: Operand) -> Option<Value>
    ensures { result ≡ bitwise_xor_of a b }
{
    on_ints(a, b, |m, n| Some(Value::Int(whole::xor(m, n))))
}

pub fn bitwise_not(a: Operand) -> Option<Value>
    ensures { result ≡ bitwise_not_of a }
{
    on_int(a, |n| Some(Value::Int(whole::not(n))))
}

pub fn bitwise_nand(a: Operand, b: Operand) -> Option<Value>
    ensures { result ≡ bitwise_nand_of a b }
{
    on_ints(a, b, |m, n| Some(Value::Int(whole::nand(m, n))))
}

pub fn bitwise_nor(a: Operand, b: Operand) -> Option<Value>
    ensures { result ≡ bitwise_nor_of a b }
{
    on_ints(a, b, |m, n| Some(Value::Int(whole::nor(m, n))))
}

pub fn bitwise_shift_left(a: Operand, b: Operand) -> Option<Value>
    ensures { result ≡ bitwise_shift_left_of a b }
{
    on_ints(a, b, |m, n| given_int(whole::shift_left(m, n)))
}

pub fn bitwise_shift_right(a: Operand, b: Operand) -> Option<Value>
    ensures { result ≡ bitwise_shift_right_of a b }
{
    on_ints(a, b, |m, n| given_int(whole::shift_right(m, n)))
}

pub fn bitwise_bit_count(a: Operand) -> Option<Value>
    ensures { result ≡ bitwise_bit_count_of a }
{
    on_int(a, |n| Some(Value::Int(whole::bit_count(n))))
}
