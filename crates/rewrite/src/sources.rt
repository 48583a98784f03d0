// Where the chains of sources through planned Selects come to.
ghost use Rattle.std.specs.Prelude.{◌≡◌, List, ℕ, ◌<◌};
ghost use Rattle.ir.specs.Limits.{max_nodes};
ghost use Rattle.records.specs.Access.{wires_of};
ghost use Rattle.model.specs.Rewrite.{follow};
ghost use Rattle.state.specs.Planned.{shape_of, Shaped};
ghost use Rattle.rewrite.specs.Sources.{Sources, Traced, origin_of, settled_at};
ghost use Rattle.rewrite.specs.Jumps.{jumps, jumped, turned, Jumped};

use crate::{Origin, has_action};
use ir::{PortRef, limit, port};
use records::access::{self, Wires};
use state::{BECOME_LITERAL, KEPT, Plan, SHORT_CIRCUIT};

// Planned Select m takes over the wire of the Select that its own wire starts at; whether it starts at one.
fn jump(
    wires: &Wires,
    actions: &[u8; limit::NODES],
    sources: &mut [u16; limit::NODES],
    m: usize,
) -> bool
    requires { Traced (wires_of wires.now.records.now) actions.now sources.old × (m < max_nodes) }
    ensures { (result ≡ jumps (wires_of wires.now.records.now) actions.now sources.old m) × (sources.new ≡ jumped (wires_of wires.now.records.now) actions.now sources.old m) }
{
    if actions[m] != SHORT_CIRCUIT {
        return false;
    }
    let s = wires.get(usize::from(sources[m])).source.node_id;
    if actions[s] != SHORT_CIRCUIT {
        return false;
    }
    sources[m] = sources[s];
    true
}

// The node that a round comes to after i others, upwards or downwards.
fn turned(nodes: usize, down: bool, i: usize) -> usize
    requires { i < nodes }
    ensures { (result < nodes) × (result ≡ turned nodes down i) }
{
    if down { nodes - 1 - i } else { i }
}

// One round, upwards or downwards. Selects that are still at a Select have come `far` steps before it, and as many as it returns after it.
fn jump_all(
    wires: &Wires,
    actions: &[u8; limit::NODES],
    sources: &mut [u16; limit::NODES],
    far: usize,
    down: bool,
) -> usize
    requires { Traced (wires_of wires.now.records.now) actions.now sources.old × (0 < far) × (far < wires.now.nodes) }
    ensures { Traced (wires_of wires.now.records.now) actions.now sources.new × (far < result) × ((details : List ℕ) → Shaped (wires_of wires.now.records.now) wires.now.nodes actions.now details → Jumped (wires_of wires.now.records.now) actions.now details sources.old far → Jumped (wires_of wires.now.records.now) actions.now details sources.new result) }
{
    let mut any = false;
    for i in 0..wires.nodes {
        any |= jump(wires, actions, sources, turned(wires.nodes, down, i));
    }
    if any { 2 * far } else { wires.nodes }
}

// The number of the wire whose source each planned Select's chain of sources comes to. One round upwards follows a chain of falling numbers to
// its end, and one round downwards a chain of rising ones.
pub fn fill(wires: &Wires, plan: &Plan, sources: &mut [u16; limit::NODES])
    requires { Shaped (wires_of wires.now.records.now) wires.now.nodes plan.now.actions plan.now.details }
    ensures { Sources (wires_of wires.now.records.now) wires.now.nodes plan.now.actions plan.now.details sources.new }
{
    *sources = plan.details;
    if !has_action(&plan.actions, wires.nodes, SHORT_CIRCUIT) {
        return;
    }
    let mut far: usize = 1;
    let mut down = false;
    while far < wires.nodes {
        far = jump_all(wires, &plan.actions, sources, far, down);
        down = !down;
    }
}

// Where a source that is no Select comes to: "a Truncate source drops the wire; a planned literal source takes port Output".
#[tactic(auto, unfolding(crate::specs::Sources::settled_at))]
fn settled(actions: &[u8; limit::NODES], source: PortRef) -> Origin
    requires { source.node_id < max_nodes }
    ensures { result ≡ settled_at actions.now source }
{
    match actions[source.node_id] {
        KEPT => Origin::From(source),
        BECOME_LITERAL => Origin::From(PortRef {
            node_id: source.node_id,
            port: port::OUTPUT,
        }),
        SHORT_CIRCUIT => Origin::Cycles,
        _ => Origin::Drops,
    }
}

// Where a wire's source comes to, by the array that `fill` filled.
pub fn origin(
    records: &[u8],
    actions: &[u8; limit::NODES],
    sources: &[u16; limit::NODES],
    source: PortRef,
) -> Origin
    requires { Traced (wires_of records.now) actions.now sources.now × (source.node_id < max_nodes) }
    ensures { (n : ℕ) (details : List ℕ) → Shaped (wires_of records.now) n actions.now details → Sources (wires_of records.now) n actions.now details sources.now → result ≡ origin_of (follow (shape_of (wires_of records.now) actions.now details) n source) }
{
    if actions[source.node_id] != SHORT_CIRCUIT {
        return settled(actions, source);
    }
    settled(
        actions,
        access::wire(records, usize::from(sources[source.node_id])).source,
    )
}
