// The classes of nodes: how each folds, and its inputs.
ghost use Rattle.std.specs.Prelude.{◌≡◌, ◌<◌};
ghost use Rattle.ir.specs.Classes.{folding_of, input_count, has_rows, is_class, is_gate, is_order, is_annihilator};

use crate::Folding;

pub const COUNT: usize = 43;

pub const LITERAL: u8 = 1;

pub const MICROCHIP_INPUT: u8 = 2;

pub const MICROCHIP_OUTPUT: u8 = 3;

pub const SELECT: u8 = 4;

pub const BRANCH: u8 = 5;

pub const COMPARE_EQUAL: u8 = 6;

pub const COMPARE_NOT_EQUAL: u8 = 7;

pub const COMPARE_LESS: u8 = 8;

pub const COMPARE_LESS_OR_EQUAL: u8 = 9;

pub const COMPARE_GREATER: u8 = 10;

pub const COMPARE_GREATER_OR_EQUAL: u8 = 11;

pub const LOGICAL_AND: u8 = 12;

pub const LOGICAL_OR: u8 = 13;

pub const LOGICAL_XOR: u8 = 14;

pub const LOGICAL_NOT: u8 = 15;

pub const LOGICAL_NAND: u8 = 16;

pub const LOGICAL_NOR: u8 = 17;

pub const MATH_ADD: u8 = 18;

pub const MATH_SUBTRACT: u8 = 19;

pub const MATH_MULTIPLY: u8 = 20;

pub const MATH_DIVIDE: u8 = 21;

pub const MATH_MODULO: u8 = 22;

pub const MATH_ABS: u8 = 23;

pub const MATH_SIGN: u8 = 24;

pub const MATH_NEGATE: u8 = 25;

pub const MATH_MIN: u8 = 26;

pub const MATH_MAX: u8 = 27;

pub const MATH_CLAMP: u8 = 28;

pub const MATH_MOD_FLOORED: u8 = 29;

pub const ROUND: u8 = 30;

pub const FLOOR: u8 = 31;

pub const CEIL: u8 = 32;

pub const BITWISE_AND: u8 = 33;

pub const BITWISE_OR: u8 = 34;

pub const BITWISE_XOR: u8 = 35;

pub const BITWISE_NOT: u8 = 36;

pub const BITWISE_NAND: u8 = 37;

pub const BITWISE_NOR: u8 = 38;

pub const BITWISE_SHIFT_LEFT: u8 = 39;

pub const BITWISE_SHIFT_RIGHT: u8 = 40;

pub const BITWISE_BIT_COUNT: u8 = 41;

pub const MATH_SQRT: u8 = 42;

pub fn is_class(class: u8) -> bool
    ensures { result ≡ is_class class }
{
    usize::from(class) < COUNT
}

// Whether the class is a gate that gives a value.
pub fn is_gate(class: u8) -> bool
    ensures { result ≡ is_gate class }
{
    (COMPARE_EQUAL <= class) & is_class(class)
}

// Whether the class is an order gate.
pub fn is_order(class: u8) -> bool
    ensures { result ≡ is_order class }
{
    matches!(class, COMPARE_LESS..=COMPARE_GREATER_OR_EQUAL)
}

// A class before the gates.
fn folding_before_gates(class: u8) -> Folding
    requires { class < 6 }
    ensures { result ≡ folding_of class }
{
    match class {
        LITERAL => Folding::Literal,
        MICROCHIP_INPUT | MICROCHIP_OUTPUT => Folding::Microchip,
        SELECT => Folding::Select,
        BRANCH => Folding::Branch,
        _ => Folding::Never,
    }
}

pub fn folding_of(class: u8) -> Folding
    ensures { result ≡ folding_of class }
{
    if class < COMPARE_EQUAL {
        return folding_before_gates(class);
    }
    if is_class(class) {
        if class == MATH_CLAMP {
            return Folding::Ternary;
        }
        let unary = (class == LOGICAL_NOT)
            | ((MATH_ABS <= class) & (class <= MATH_NEGATE))
            | ((ROUND <= class) & (class <= CEIL))
            | (class == BITWISE_NOT)
            | ((BITWISE_BIT_COUNT <= class) & (class <= MATH_SQRT));
        if unary {
            return Folding::Unary;
        }
        return Folding::Binary;
    }
    Folding::Never
}

pub fn input_count(folding: Folding) -> usize
    ensures { result ≡ input_count folding }
{
    match folding {
        Folding::Never | Folding::Literal => 0,
        Folding::Microchip | Folding::Select | Folding::Branch | Folding::Unary => 1,
        Folding::Binary => 2,
        Folding::Ternary => 3,
    }
}

// Whether the table has rows for the class.
pub fn has_rows(folding: Folding) -> bool
    ensures { result ≡ has_rows folding }
{
    !matches!(
        folding,
        Folding::Never | Folding::Literal | Folding::Microchip
    )
}

// Whether the class may have an annihilator record.
pub fn is_annihilator(class: u8) -> bool
    ensures { result ≡ is_annihilator class }
{
    matches!(class, LOGICAL_AND | LOGICAL_OR)
}
