// Values, and the records of properties.
ghost use Rattle.std.specs.Prelude.{◌≡◌, ◌+◌, ◌≤◌, ◌<◌, length, true};
ghost use Rattle.std.specs.Float.Ieee.{of_bits};
ghost use Rattle.std.specs.Float.{binary64};
ghost use Rattle.ir.specs.Kinds.{role_of, text_kind};
ghost use Rattle.text.specs.Listed.{text_value_size, is_listed_text};
ghost use Rattle.ir.specs.declared.Role.{Role};
ghost use Rattle.encoding.specs.Numbers.{Written};
ghost use Rattle.encoding.specs.Values.{value_size, value_at, kind_of, float_bytes, text_bytes, value_bytes, property_bytes, PropertyBack, TextRead};
ghost use Rattle.encoding.specs.Words.{held_composite_or_text, held_by};

use crate::numbers::{read_u64, write_byte, write_head, write_u64};
use crate::words::{self, Words};
use ir::kind;
use text::Text;
use value::Value;

// The words of the value of a kind whose bytes stand at an offset. The bytes of a text say its length.
#[tactic(auto, unfolding(crate::specs::Words::held_value, crate::specs::Words::held_composite_or_text, crate::specs::Values::value_at, crate::specs::Values::composite_or_text_at))]
fn read_words(kind: u8, s: &[u8], at: usize) -> Words
    requires { (role_of kind ≡ Role.Property) × (at + value_size kind ≤ length s.now) }
    ensures { held_by kind result ≡ value_at kind s.now at }
{
    match kind {
        kind::INT | kind::FLOAT => Words {
            a: read_u64(s, at),
            ..Words::ZERO
        },
        kind::BOOL => Words {
            a: u64::from(s[at]),
            ..Words::ZERO
        },
        kind::TEXT => Words {
            a: read_u64(s, at + 1),
            b: read_u64(s, at + 9),
            ..Words::ZERO
        },
        kind::QUAT | kind::COLOR => Words {
            a: read_u64(s, at),
            b: read_u64(s, at + 8),
            c: read_u64(s, at + 16),
            d: read_u64(s, at + 24),
        },
        _ => Words {
            a: read_u64(s, at),
            b: read_u64(s, at + 8),
            c: read_u64(s, at + 16),
            d: 0,
        },
    }
}

// The value of a kind whose bytes stand at an offset.
pub fn read_value(kind: u8, s: &[u8], at: usize) -> Value
    requires { (role_of kind ≡ Role.Property) × (at + value_size kind ≤ length s.now) }
    ensures value { result ≡ value_at kind s.now at }
    ensures text { kind ≡ text_kind → is_listed_text s.now at ≡ true → TextRead s.now at }
{
    words::value_of(kind, read_words(kind, s, at))
}

pub fn kind_of(v: Value) -> u8
    ensures { result ≡ kind_of v }
{
    match v {
        Value::Int(_) => kind::INT,
        Value::Float(_) => kind::FLOAT,
        Value::Bool(_) => kind::BOOL,
        Value::Vector { .. } => kind::VECTOR,
        Value::Rotator { .. } => kind::ROTATOR,
        Value::Quat { .. } => kind::QUAT,
        Value::Color { .. } => kind::COLOR,
        Value::Text { .. } => kind::TEXT,
    }
}

// The float that a word holds. Each writer returns the offset past what it wrote.
fn write_float(out: &mut [u8], at: usize, word: u64) -> usize
    requires { at + 8 ≤ length out.old }
    ensures { Written (float_bytes (of_bits binary64 word)) out.old out.new at result }
{
    write_u64(out, at, ieee::to_bits(ieee::from_bits(word)))
}

fn write_text(out: &mut [u8], at: usize, text: Text) -> usize
    requires { at + text_value_size ≤ length out.old }
    ensures { Written (text_bytes text.low text.high) out.old out.new at result }
{
    let past_length = write_byte(out, at, text.length_of());
    let past_low = write_u64(out, past_length, text.low);
    write_u64(out, past_low, text.high)
}

// The bytes of a composite of a kind that these words hold.
fn write_composite(out: &mut [u8], at: usize, kind: u8, words: Words) -> usize
    requires { (5 < kind) × (kind < 10) × (at + length (value_bytes (held_composite_or_text kind words.a words.b words.c words.d)) ≤ length out.old) }
    ensures { Written (value_bytes (held_composite_or_text kind words.a words.b words.c words.d)) out.old out.new at result }
{
    let second = write_float(out, at, words.a);
    let third = write_float(out, second, words.b);
    let fourth = write_float(out, third, words.c);
    if kind <= kind::ROTATOR {
        return fourth;
    }
    write_float(out, fourth, words.d)
}

// The bytes of the value of a kind that these words hold, without kind, node and port.
#[inline]
pub fn write_bytes(out: &mut [u8], at: usize, kind: u8, words: Words) -> usize
    requires { (role_of kind ≡ Role.Property) × (at + length (value_bytes (held_by kind words)) ≤ length out.old) }
    ensures written { Written (value_bytes (held_by kind words)) out.old out.new at result }
    ensures back { value_at kind out.new at ≡ held_by kind words }
{
    match kind {
        kind::FLOAT => write_float(out, at, words.a),
        kind::INT => write_u64(out, at, words.a),
        kind::BOOL => write_byte(out, at, u8::from(words.a == 1)),
        _ if kind <= kind::COLOR => write_composite(out, at, kind, words),
        _ => {
            let text = Text {
                low: words.a,
                high: words.b,
            };
            write_text(out, at, text)
        }
    }
}

// The record of a property.
pub fn write_value(
    out: &mut [u8],
    at: usize,
    node: usize,
    port: u8,
    kind: u8,
    words: Words,
) -> usize
    requires { (role_of kind ≡ Role.Property) × (at + length (property_bytes node port (held_by kind words)) ≤ length out.old) }
    ensures written { Written (property_bytes node port (held_by kind words)) out.old out.new at result }
    ensures back { node < 65536 → PropertyBack node port (held_by kind words) out.new at }
{
    let past_node = write_head(out, at, kind, node);
    let past_port = write_byte(out, past_node, port);
    write_bytes(out, past_port, kind, words)
}
