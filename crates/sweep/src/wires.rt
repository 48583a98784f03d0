// The wires that stay: those into nodes that stay.
ghost use Rattle.std.specs.Prelude.{◌≡◌, ◌+◌, ◌*◌, ◌≤◌, ◌<◌, length, get_or};
ghost use Rattle.encoding.specs.Numbers.{Written};
ghost use Rattle.encoding.specs.Wires.{wire_bytes};
ghost use Rattle.records.specs.Access.{wires_of, no_wire};
ghost use Rattle.model.specs.Maps.{keep};
ghost use Rattle.model.specs.Answer.{each};
ghost use Rattle.sweep.specs.Queue.{stays_in, staying_at};

use encoding::wires as wire_records;
use ir::limit;
use records::access::Wires;

// Whether wire i stays.
fn stays(wires: &Wires, taken: &[bool; limit::NODES], i: usize) -> bool
    requires { i < length (wires_of wires.now.records.now) }
    ensures { result ≡ stays_in taken.now (get_or (wires_of wires.now.records.now) i no_wire) }
{
    !taken[wires.get(i).target.node_id]
}

// How many wires stay.
pub fn count(wires: &Wires, taken: &[bool; limit::NODES]) -> usize
    ensures { result ≡ length (keep (stays_in taken.now) (wires_of wires.now.records.now)) }
{
    let mut left = 0;
    for i in 0..wires.len() {
        left += usize::from(stays(wires, taken, i));
    }
    left
}

// Writes wire i, if it stays.
fn write_one(
    wires: &Wires,
    taken: &[bool; limit::NODES],
    i: usize,
    out: &mut [u8],
    at: usize,
) -> usize
    requires { (i < length (wires_of wires.now.records.now)) × (at + length (each wire_bytes (staying_at taken.now (wires_of wires.now.records.now) i)) ≤ length out.old) }
    ensures { Written (each wire_bytes (staying_at taken.now (wires_of wires.now.records.now) i)) out.old out.new at result }
{
    if stays(wires, taken, i) {
        return wire_records::write_wire(out, at, wires.get(i));
    }
    at
}

// Writes the wires that stay, in their order.
pub fn write(wires: &Wires, taken: &[bool; limit::NODES], out: &mut [u8], at: usize) -> usize
    requires { at + 7 * length (keep (stays_in taken.now) (wires_of wires.now.records.now)) ≤ length out.old }
    ensures { Written (each wire_bytes (keep (stays_in taken.now) (wires_of wires.now.records.now))) out.old out.new at result }
{
    let mut past = at;
    for i in 0..wires.len() {
        past = write_one(wires, taken, i, out, past);
    }
    past
}
