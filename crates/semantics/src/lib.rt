// What a gate gives, by its class and operands.
#![tactic(auto)]

ghost use Rattle.std.specs.Prelude.{◌≡◌, ◌≤◌};
ghost use Rattle.ir.specs.declared.class.TheConstants.{COMPARE_EQUAL, COMPARE_GREATER_OR_EQUAL, LOGICAL_AND, LOGICAL_NOR, MATH_ADD, MATH_MODULO, MATH_ABS, MATH_MOD_FLOORED, ROUND, CEIL, BITWISE_AND, BITWISE_NOR, BITWISE_SHIFT_LEFT, BITWISE_BIT_COUNT};
ghost use Rattle.semantics.specs.Eval.{eval_of};
ghost use Rattle.semantics.specs.Starred.{starred, AllHold};
ghost use Rattle.semantics.specs.Whole.{WholeMath};

use arithmetic::MathOp;
use ir::class;
use value::{Operand, Value};

// The comparison gates.
fn compare(class: u8, a: Operand, b: Operand, c: Operand) -> Option<Value>
    requires { (COMPARE_EQUAL ≤ class) × (class ≤ COMPARE_GREATER_OR_EQUAL) }
    ensures { result ≡ eval_of class a b c }
{
    if class < class::COMPARE_LESS {
        return comparison::equality(class != class::COMPARE_NOT_EQUAL, a, b);
    }
    let or_equal = matches!(
        class,
        class::COMPARE_LESS_OR_EQUAL | class::COMPARE_GREATER_OR_EQUAL
    );
    let swapped = class::COMPARE_GREATER <= class;
    comparison::order(or_equal, swapped, a, b)
}

// The logical gates.
fn logical(class: u8, a: Operand, b: Operand, c: Operand) -> Option<Value>
    requires { (LOGICAL_AND ≤ class) × (class ≤ LOGICAL_NOR) }
    ensures { result ≡ eval_of class a b c }
{
    match class {
        class::LOGICAL_AND => comparison::logical_and(a, b),
        class::LOGICAL_OR => comparison::logical_or(a, b),
        class::LOGICAL_XOR => comparison::logical_xor(a, b),
        class::LOGICAL_NOT => comparison::logical_not(a),
        class::LOGICAL_NAND => comparison::logical_nand(a, b),
        _ => comparison::logical_nor(a, b),
    }
}

// Add to Modulo.
fn math(class: u8, a: Operand, b: Operand, c: Operand) -> Option<Value>
    requires { (MATH_ADD ≤ class) × (class ≤ MATH_MODULO) }
    ensures { result ≡ eval_of class a b c }
{
    match class {
        class::MATH_ADD => arithmetic::math(MathOp::Add, a, b),
        class::MATH_SUBTRACT => arithmetic::math(MathOp::Subtract, a, b),
        class::MATH_MULTIPLY => arithmetic::math(MathOp::Multiply, a, b),
        class::MATH_DIVIDE => arithmetic::math(MathOp::Divide, a, b),
        _ => arithmetic::math(MathOp::Modulo, a, b),
    }
}

// Abs to ModuloFloored.
fn extended_math(class: u8, a: Operand, b: Operand, c: Operand) -> Option<Value>
    requires { (MATH_ABS ≤ class) × (class ≤ MATH_MOD_FLOORED) }
    ensures { result ≡ eval_of class a b c }
{
    match class {
        class::MATH_ABS => extended::abs(a),
        class::MATH_SIGN => extended::sign(a),
        class::MATH_NEGATE => extended::negate(a),
        class::MATH_MIN => extended::min(a, b),
        class::MATH_MAX => extended::max(a, b),
        class::MATH_CLAMP => extended::clamp(a, b, c),
        _ => extended::modulo_floored(a, b),
    }
}

// Round, Floor and Ceil.
fn rounding(class: u8, a: Operand, b: Operand, c: Operand) -> Option<Value>
    requires { (ROUND ≤ class) × (class ≤ CEIL) }
    ensures { result ≡ eval_of class a b c }
{
    match class {
        class::ROUND => extended::round(a),
        class::FLOOR => extended::floor(a),
        _ => extended::ceil(a),
    }
}

// The bitwise gates up to NOR.
fn bitwise_logic(class: u8, a: Operand, b: Operand, c: Operand) -> Option<Value>
    requires { (BITWISE_AND ≤ class) × (class ≤ BITWISE_NOR) }
    ensures { result ≡ eval_of class a b c }
{
    match class {
        class::BITWISE_AND => bitwise::bitwise_and(a, b),
        class::BITWISE_OR => bitwise::bitwise_or(a, b),
        class::BITWISE_XOR => bitwise::bitwise_xor(a, b),
        class::BITWISE_NOT => bitwise::bitwise_not(a),
        class::BITWISE_NAND => bitwise::bitwise_nand(a, b),
        _ => bitwise::bitwise_nor(a, b),
    }
}

// Shifts and BitCount.
fn shifts(class: u8, a: Operand, b: Operand, c: Operand) -> Option<Value>
    requires { (BITWISE_SHIFT_LEFT ≤ class) × (class ≤ BITWISE_BIT_COUNT) }
    ensures { result ≡ eval_of class a b c }
{
    match class {
        class::BITWISE_SHIFT_LEFT => bitwise::bitwise_shift_left(a, b),
        class::BITWISE_SHIFT_RIGHT => bitwise::bitwise_shift_right(a, b),
        _ => bitwise::bitwise_bit_count(a),
    }
}

// The value that a gate of the class gives of the operands at its input ports, in their order; a gate of fewer inputs
// leaves the rest aside. A class that is no gate gives none.
#[tactic(auto, using(crate::proofs::Starred::starred_hold))]
pub fn eval_in(class: u8, a: Operand, b: Operand, c: Operand) -> Option<Value>
    ensures rule { result ≡ eval_of class a b c }
    ensures starred { AllHold starred }
{
    if class <= class::MATH_MODULO {
        if class < class::LOGICAL_AND {
            if class < class::COMPARE_EQUAL {
                return None;
            }
            return compare(class, a, b, c);
        }
        if class <= class::LOGICAL_NOR {
            return logical(class, a, b, c);
        }
        return math(class, a, b, c);
    }
    if class < class::BITWISE_AND {
        if class <= class::MATH_MOD_FLOORED {
            return extended_math(class, a, b, c);
        }
        return rounding(class, a, b, c);
    }
    if class <= class::BITWISE_NOR {
        return bitwise_logic(class, a, b, c);
    }
    if class <= class::BITWISE_BIT_COUNT {
        return shifts(class, a, b, c);
    }
    if class == class::MATH_SQRT {
        return extended::sqrt(a);
    }
    None
}

// Add to Modulo of two whole numbers.
pub fn whole_math(class: u8, a: i64, b: i64) -> Option<Value>
    requires { (MATH_ADD ≤ class) × (class ≤ MATH_MODULO) }
    ensures { WholeMath class a b result }
{
    match class {
        class::MATH_ADD => arithmetic::whole_math(MathOp::Add, a, b),
        class::MATH_SUBTRACT => arithmetic::whole_math(MathOp::Subtract, a, b),
        class::MATH_MULTIPLY => arithmetic::whole_math(MathOp::Multiply, a, b),
        class::MATH_DIVIDE => arithmetic::whole_math(MathOp::Divide, a, b),
        _ => arithmetic::whole_math(MathOp::Modulo, a, b),
    }
}
