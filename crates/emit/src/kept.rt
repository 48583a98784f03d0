// The rewritten wires where neither a Select nor a Branch is planned: each wire stays, or goes with its target.
ghost use Rattle.std.specs.Prelude.{cond, ◌≡◌, ◌+◌, ◌<◌, ◌≤◌, eqb, length, get_or};
ghost use Rattle.ir.specs.Limits.{max_nodes};
ghost use Rattle.ir.specs.Ports.{output};
ghost use Rattle.encoding.specs.Numbers.{Written};
ghost use Rattle.encoding.specs.Wires.{wire_bytes};
ghost use Rattle.records.specs.Access.{wires_of, no_wire};
ghost use Rattle.model.specs.Answer.{each};
ghost use Rattle.rewrite.specs.Tallied.{kept_wire, kept_wires};
ghost use Rattle.emit.specs.Emit.{KeepsAll};

use encoding::wires as wire_records;
use ir::{PortRef, Wire, limit, port};
use records::access::Wires;
use state::KEPT;

// The port that a wire starts at: Output, where the node is planned.
fn source_port(actions: &[u8; limit::NODES], source: PortRef) -> u8
    requires { source.node_id < max_nodes }
    ensures { result ≡ cond (eqb (get_or actions.now source.node_id 0) 0) source.port output }
{
    if actions[source.node_id] == KEPT {
        source.port
    } else {
        port::OUTPUT
    }
}

// Writes wire i, unless its target is planned.
fn write_wire(
    wires: &Wires,
    actions: &[u8; limit::NODES],
    i: usize,
    out: &mut [u8],
    at: usize,
) -> usize
    requires { (i < length (wires_of wires.now.records.now)) × (at + length (each wire_bytes (kept_wire actions.now (get_or (wires_of wires.now.records.now) i no_wire))) ≤ length out.old) }
    ensures { Written (each wire_bytes (kept_wire actions.now (get_or (wires_of wires.now.records.now) i no_wire))) out.old out.new at result }
{
    let wire = wires.get(i);
    let target = wire.target;
    if actions[target.node_id] != KEPT {
        return at;
    }
    let source = PortRef {
        node_id: wire.source.node_id,
        port: source_port(actions, wire.source),
    };
    wire_records::write_wire(out, at, Wire { source, target })
}

// Copies wire records, byte by byte: `copy_from_slice` asks the host for memmove, which a board need not have.
fn copy_wires(wires: &[u8], out: &mut [u8], at: usize) -> usize
    requires { at + length wires.now ≤ length out.old }
    ensures { Written wires.now out.old out.new at result }
{
    for k in 0..wires.len() {
        out[at + k] = wires[k];
    }
    at + wires.len()
}

// Writes the wires into nodes that stay, one by one.
fn write_each(wires: &Wires, actions: &[u8; limit::NODES], out: &mut [u8], at: usize) -> usize
    requires { KeepsAll wires.now.records.now wires.now.nodes at (length out.old) }
    ensures { Written (each wire_bytes (kept_wires actions.now (wires_of wires.now.records.now))) out.old out.new at result }
{
    let mut past = at;
    for i in 0..wires.len() {
        past = write_wire(wires, actions, i, out, past);
    }
    past
}

// Writes the wires into nodes that stay. Where nothing is planned, they are those of the input.
pub fn write_wires(wires: &Wires, actions: &[u8; limit::NODES], out: &mut [u8], at: usize) -> usize
    requires { KeepsAll wires.now.records.now wires.now.nodes at (length out.old) }
    ensures { Written (each wire_bytes (kept_wires actions.now (wires_of wires.now.records.now))) out.old out.new at result }
{
    if state::any_above(actions, wires.nodes, KEPT) {
        return write_each(wires, actions, out, at);
    }
    copy_wires(wires.records, out, at)
}
