// Values as words: Ints in two's complement, floats as their bits, a Bool as 0 or 1, a text as its 16 bytes.
ghost use Rattle.std.specs.Prelude.{◌≡◌};
ghost use Rattle.encoding.specs.Values.{kind_of};
ghost use Rattle.encoding.specs.Words.{held_composite_or_text, held_by, ThreeFloats, FourFloats};

use ir::kind;
use value::Value;

// The words that hold a value; those that it does not need are 0.
#[derive(Clone, Copy)]
pub struct Words {
    pub a: u64,
    pub b: u64,
    pub c: u64,
    pub d: u64,
}

impl Words {
    pub const ZERO: Self = Words {
        a: 0,
        b: 0,
        c: 0,
        d: 0,
    };
}

// A composite or a text.
#[tactic(auto, unfolding(crate::specs::Words::held_composite_or_text))]
fn composite_or_text(kind: u8, words: Words) -> Value
    ensures { result ≡ held_composite_or_text kind words.a words.b words.c words.d }
{
    let x = ieee::from_bits(words.a);
    let y = ieee::from_bits(words.b);
    let z = ieee::from_bits(words.c);
    let w = ieee::from_bits(words.d);
    match kind {
        kind::VECTOR => Value::Vector { x, y, z },
        kind::ROTATOR => Value::Rotator {
            pitch: x,
            yaw: y,
            roll: z,
        },
        kind::QUAT => Value::Quat { x, y, z, w },
        kind::COLOR => Value::Color {
            r: x,
            g: y,
            b: z,
            a: w,
        },
        _ => Value::Text {
            low: words.a,
            high: words.b,
        },
    }
}

// The value of a kind that these words hold.
#[tactic(auto, unfolding(crate::specs::Words::held_value))]
pub fn value_of(kind: u8, words: Words) -> Value
    ensures { result ≡ held_by kind words }
{
    match kind {
        kind::INT => Value::Int(whole::from_bits(words.a)),
        kind::FLOAT => Value::Float(ieee::from_bits(words.a)),
        kind::BOOL => Value::Bool(words.a == 1),
        _ => composite_or_text(kind, words),
    }
}

fn three_words(x: f64, y: f64, z: f64) -> Words
    ensures { ThreeFloats result x y z }
{
    Words {
        a: ieee::to_bits(x),
        b: ieee::to_bits(y),
        c: ieee::to_bits(z),
        d: 0,
    }
}

fn four_words(x: f64, y: f64, z: f64, w: f64) -> Words
    ensures { FourFloats result x y z w }
{
    Words {
        d: ieee::to_bits(w),
        ..three_words(x, y, z)
    }
}

pub fn words_of(v: Value) -> Words
    ensures { held_by (kind_of v) result ≡ v }
{
    match v {
        Value::Int(n) => Words {
            a: whole::to_bits(n),
            ..Words::ZERO
        },
        Value::Float(x) => Words {
            a: ieee::to_bits(x),
            ..Words::ZERO
        },
        Value::Bool(b) => Words {
            a: u64::from(b),
            ..Words::ZERO
        },
        Value::Vector { x, y, z } => three_words(x, y, z),
        Value::Rotator { pitch, yaw, roll } => three_words(pitch, yaw, roll),
        Value::Quat { x, y, z, w } => four_words(x, y, z, w),
        Value::Color { r, g, b, a } => four_words(r, g, b, a),
        Value::Text { low, high } => Words {
            a: low,
            b: high,
            ..Words::ZERO
        },
    }
}
