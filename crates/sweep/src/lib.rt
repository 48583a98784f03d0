// Takes the nodes that feed nothing (`sweep_dead_pure` of lower/fold/mod.rs).
#![tactic(auto)]

pub mod eligible;
pub mod fates;
pub mod queue;
pub mod wires;

ghost use Rattle.records.specs.Access.{wires_of};
ghost use Rattle.sweep.specs.Queue.{Within, Marked};

use ir::limit;
use queue::Queue;
use records::access::Wires;
use wire_index::Chains;

// Marks the nodes that are taken: the eligible ones that feed nothing, then those that feed only such, and so on.
pub fn sweep_dead_pure(
    wires: &Wires,
    eligible: &[bool; limit::NODES],
    taken: &mut [bool; limit::NODES],
)
    requires { Within wires.now.nodes eligible.now }
    ensures { Marked wires.now.nodes (wires_of wires.now.records.now) eligible.now taken.new }
{
    let mut queue = Queue::new(eligible);
    queue.count_wires(wires);
    queue.release_nodes(wires.nodes);
    if 0 < queue.tail {
        let mut targets = Chains::new();
        wire_index::link_targets(wires, &mut targets);
        queue.remove_nodes(wires, &targets);
    }
    *taken = queue.taken;
}
