// The consumers of a newly known node join the queue, unless they are known or wait.
ghost use Rattle.std.specs.Prelude.{◌<◌};
ghost use Rattle.ir.specs.Limits.{max_nodes};
ghost use Rattle.worklist.specs.Queue.{Waits};
ghost use Rattle.worklist.specs.Joins.{OneJoined, Chained, ConsumersJoined};

use crate::queue;
use crate::queue::QUEUE_PLACES;
use ir::limit;
use records::access::Wires;
use state::Known;
use wire_index::Chains;

// Node c joins the `count` waiting ones, unless it is one of them or is known. How many wait then.
fn join_one(
    known: &Known,
    marks: &mut [bool; limit::NODES],
    places: &mut [u16; QUEUE_PLACES],
    head: usize,
    count: usize,
    c: usize,
) -> usize
    requires { (c < max_nodes) × Waits marks.old places.old head count }
    ensures { OneJoined known.now.kinds c head places.old count marks.new places.new result }
{
    if marks[c] || known.is_known(c) {
        return count;
    }
    queue::push(places, head, count, c);
    marks[c] = true;
    count + 1
}

// The consumers of node n join in number order, which is that of its chain. How many nodes wait then.
pub fn join(
    wires: &Wires,
    consumers: &Chains<{ limit::NODES }>,
    known: &Known,
    marks: &mut [bool; limit::NODES],
    places: &mut [u16; QUEUE_PLACES],
    head: usize,
    count: usize,
    n: usize,
) -> usize
    requires { Chained wires.now.records.now consumers.now.first consumers.now.next n × (n < max_nodes) × Waits marks.old places.old head count }
    ensures { ConsumersJoined wires.now.records.now known.now.kinds n head places.old count marks.new places.new result }
{
    let mut total = count;
    let mut code = usize::from(consumers.first[n]);
    while code != 0 {
        let target = wires.get(code - 1).target.node_id;
        total = join_one(known, marks, places, head, total, target);
        code = usize::from(consumers.next[code - 1]);
    }
    total
}
