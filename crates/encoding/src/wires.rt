// Records of wires.
ghost use Rattle.std.specs.Prelude.{◌≡◌, ◌+◌, ◌≤◌, ◌<◌, length};
ghost use Rattle.encoding.specs.Numbers.{Written};
ghost use Rattle.encoding.specs.Wires.{port_ref_at, wire_at, wire_bytes, port_ref_bytes};

use crate::numbers;
use ir::{PortRef, Wire, kind};

// How long a record is.
pub const SIZE: usize = 7;

fn read_port_ref(s: &[u8], at: usize) -> PortRef
    requires { at + 3 ≤ length s.now }
    ensures { result ≡ port_ref_at s.now at }
{
    PortRef {
        node_id: numbers::read_u16(s, at),
        port: s[at + 2],
    }
}

pub fn read_wire(s: &[u8], at: usize) -> Wire
    requires { at + 7 ≤ length s.now }
    ensures { result ≡ wire_at s.now at }
{
    Wire {
        source: read_port_ref(s, at + 1),
        target: read_port_ref(s, at + 4),
    }
}

fn write_port_ref(out: &mut [u8], at: usize, port_ref: PortRef) -> usize
    requires { at + 3 ≤ length out.old }
    ensures { Written (port_ref_bytes port_ref) out.old out.new at result }
{
    let past = numbers::write_u16(out, at, port_ref.node_id);
    numbers::write_byte(out, past, port_ref.port)
}

pub fn write_wire(out: &mut [u8], at: usize, wire: Wire) -> usize
    requires { at + 7 ≤ length out.old }
    ensures written { Written (wire_bytes wire) out.old out.new at result }
    ensures back { wire.source.node_id < 65536 → wire.target.node_id < 65536 → wire_at out.new at ≡ wire }
{
    let source = numbers::write_byte(out, at, kind::WIRE);
    let target = write_port_ref(out, source, wire.source);
    write_port_ref(out, target, wire.target)
}
