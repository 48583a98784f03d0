// The worklist: nodes are tried in the order of a queue until none waits (lower/fold/mod.rs, the loop of `fold_certified_constants`).
#![tactic(auto)]

pub mod consumers;
pub mod queue;

ghost use Rattle.std.specs.Prelude.{◌≡◌, ◌<◌};
ghost use Rattle.model.specs.Inputs.{size};
ghost use Rattle.model.specs.Own.{own_of};
ghost use Rattle.model.specs.Trial.{empty};
ghost use Rattle.state.specs.Held.{known_of};
ghost use Rattle.state.specs.Planned.{Holds};
ghost use Rattle.wire_index.specs.Chains.{Consumers};
ghost use Rattle.inputs.specs.Reading.{graph_in};
ghost use Rattle.resolve.specs.Reads.{IsComplete};
ghost use Rattle.worklist.specs.Queue.{Waits};
ghost use Rattle.worklist.specs.Turns.{Turned, Finished};

use crate::queue::{QUEUE_PLACES, Queue};
use inputs::Reads;
use ir::limit;
use state::{Known, Plan};
use wire_index::Chains;

// Node n, taken from the front, is tried; where it is then known, its consumers join those that wait. How many wait then.
fn turn(
    reads: &Reads,
    consumers: &Chains<{ limit::NODES }>,
    own: &[u8; limit::NODES],
    known: &mut Known,
    plan: &mut Plan,
    marks: &mut [bool; limit::NODES],
    places: &mut [u16; QUEUE_PLACES],
    head: usize,
    count: usize,
    n: usize,
) -> usize
    requires { IsComplete reads.now × Consumers (graph_in reads.now).wires consumers.now.first consumers.now.next × (n < size (graph_in reads.now)) × (known_of known.old.kinds known.old.words n ≡ None) × Waits marks.old places.old head count }
    ensures { Turned (graph_in reads.now) (own_of (graph_in reads.now) own.now) n head count known.old.kinds known.old.words plan.old.actions plan.old.details places.old
        known.new.kinds known.new.words plan.new.actions plan.new.details marks.new places.new result }
{
    let trial = resolve::try_resolve(reads, own, &*known, n);
    if state::store(known, plan, n, trial) {
        return consumers::join(
            &reads.wires,
            consumers,
            &*known,
            marks,
            places,
            head,
            count,
            n,
        );
    }
    count
}

// Each node that is taken from the front of the queue is tried, one pop each, until none waits. `own` has what inputs are set to.
// Nothing is known and nothing planned at first. The pops.
pub fn run(
    reads: &Reads,
    consumers: &Chains<{ limit::NODES }>,
    own: &[u8; limit::NODES],
    known: &mut Known,
    plan: &mut Plan,
) -> usize
    requires { IsComplete reads.now × Consumers (graph_in reads.now).wires consumers.now.first consumers.now.next × Holds (graph_in reads.now) known.old.kinds known.old.words plan.old.actions plan.old.details empty }
    ensures { Finished (graph_in reads.now) (own_of (graph_in reads.now) own.now) known.new.kinds known.new.words plan.new.actions plan.new.details result }
{
    let mut marks = [false; limit::NODES];
    let mut queue = Queue::new();
    queue::start(&mut queue, &mut marks, reads.counts.nodes);
    let mut pops: usize = 0;
    while 0 < queue.count {
        let at = queue.head;
        let n = queue::front(&queue.places, at);
        queue = queue.rest();
        marks[n] = false;
        let head = queue.head;
        let count = queue.count;
        let waiting = turn(
            reads,
            consumers,
            own,
            known,
            plan,
            &mut marks,
            &mut queue.places,
            head,
            count,
            n,
        );
        queue = queue.longer(waiting);
        pops += 1;
    }
    pops
}
