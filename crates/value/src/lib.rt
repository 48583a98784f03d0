// What wires carry, what a gate's input has, and what a gate gives.
#![tactic(auto)]

ghost use Rattle.std.specs.Prelude.{◌≡◌};
ghost use Rattle.value.specs.Variants.{variant_of};

use ir::variant;

#[derive(Clone, Copy)]
pub enum Value {
    Int(i64),
    Float(f64),
    Bool(bool),
    Vector { x: f64, y: f64, z: f64 },
    Rotator { pitch: f64, yaw: f64, roll: f64 },
    Quat { x: f64, y: f64, z: f64, w: f64 },
    Color { r: f64, g: f64, b: f64, a: f64 },
    // 16 bytes, low byte first, the unused ones 0
    Text { low: u64, high: u64 },
}

// A gate's input: no wire and no property, or a value.
pub type Operand = Option<Value>;

pub fn variant_of(v: Value) -> u8
    ensures { result ≡ variant_of v }
{
    match v {
        Value::Int(_) => variant::INT,
        Value::Float(_) => variant::FLOAT,
        Value::Bool(_) => variant::BOOL,
        Value::Vector { .. } => variant::VECTOR,
        Value::Rotator { .. } => variant::ROTATOR,
        Value::Quat { .. } => variant::QUAT,
        Value::Color { .. } => variant::COLOR,
        Value::Text { .. } => variant::TEXT,
    }
}
