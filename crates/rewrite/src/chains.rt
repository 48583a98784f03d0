// Chains of the wires that the planned Branches take, by source node and in wire order.
ghost use Rattle.std.specs.Prelude.{◌≡◌, Bool, ◌&&◌, ◌<◌, eqb, get_or};
ghost use Rattle.ir.specs.Limits.{max_nodes};
ghost use Rattle.ir.specs.declared.Wire.{Wire};
ghost use Rattle.records.specs.Access.{wires_of};
ghost use Rattle.rewrite.specs.Taken.{Later};
ghost use Rattle.rewrite.specs.Linked.{Linked, Within, leaves, takes_from};

use encoding::wires;
use ir::{PortRef, Wire, limit};
use records::access;
use state::{Plan, TRUNCATE};
use wire_index::Chains;

// Whether a planned Branch takes the wires from a port.
pub fn is_taken(plan: &Plan, source: PortRef) -> bool
    requires { source.node_id < max_nodes }
    ensures { result ≡ takes_from plan.now.actions plan.now.details source }
{
    (plan.actions[source.node_id] == TRUNCATE)
        & (u16::from(source.port) == plan.details[source.node_id])
}

// Links the wires that pass a test, the last wire first: each goes to the front of its source node's chain.
pub fn link_all<F: Fn(Wire) -> bool>(records: &[u8], test: F, chains: &mut Chains<{ limit::NODES }>)
    requires within { Within (wires_of records.now) }
    requires callable { (w : Wire) → w.source.node_id < max_nodes → w.target.node_id < max_nodes → F.pre test w }
    requires later { Later (wires_of records.now) chains.old.next }
    ensures { (picks : Wire → Bool) → ((w : Wire) (r : Bool) → F.post test w r → r ≡ picks w) → Linked (wires_of records.now) (leaves picks) chains.new.first chains.new.next 0 }
{
    chains.first = [0u16; limit::NODES];
    for i in (0..records.len() / wires::SIZE).rev() {
        let wire = access::wire(records, i);
        if test(wire) {
            let node = wire.source.node_id;
            chains.next[i] = chains.first[node];
            chains.first[node] = (i + 1) as u16;
        }
    }
}
