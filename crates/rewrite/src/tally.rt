// Questions 9 and 10: whether each wire's rewriting ends, and how many wires there are at the end.
ghost use Rattle.std.specs.Prelude.{◌≡◌, List, ℕ, ◌<◌, ◌≤◌, length};
ghost use Rattle.ir.specs.Limits.{max_nodes};
ghost use Rattle.records.specs.Access.{wires_of};
ghost use Rattle.state.specs.Planned.{shape_of};
ghost use Rattle.rewrite.specs.Linked.{Within};
ghost use Rattle.rewrite.specs.Tallied.{Tallied, kept_wires, by_origin, Scannable, Filled, Weighs};

use crate::{COUNT_LIMIT, Endless, NO_COUNT, Origin, Rewrites, counts, sources};
use encoding::wires;
use ir::limit;
use records::access;
use state::{BECOME_LITERAL, KEPT, Plan};

fn by_origin(origin: Origin, count: u16) -> u16
    ensures { result ≡ by_origin origin count }
{
    match origin {
        Origin::Cycles => NO_COUNT,
        Origin::Drops => 0,
        Origin::From(_) => count,
    }
}

// How many wires a wire becomes. Once it leads to no unplanned target, its source plays no part.
fn weigh(records: &[u8], plan: &Plan, rewrites: &Rewrites, i: usize) -> u16
    requires { Scannable (wires_of records.now) plan.now.actions rewrites.now.sources rewrites.now.counts × (i < length (wires_of records.now)) }
    ensures { Weighs (wires_of records.now) plan.now.actions rewrites.now.sources rewrites.now.counts i result }
{
    let wire = access::wire(records, i);
    let count = counts::count_at(&plan.actions, &rewrites.counts, wire.target);
    if (count == 0) | (count == NO_COUNT) {
        return count;
    }
    by_origin(
        sources::origin(records, &plan.actions, &rewrites.sources, wire.source),
        count,
    )
}

fn weigh_all(records: &[u8], plan: &Plan, rewrites: &Rewrites) -> Result<usize, Endless>
    requires { Scannable (wires_of records.now) plan.now.actions rewrites.now.sources rewrites.now.counts }
    ensures { (n : ℕ) (details : List ℕ) → Filled (wires_of records.now) n plan.now.actions details rewrites.now.sources rewrites.now.counts → Tallied (shape_of (wires_of records.now) plan.now.actions details) n (wires_of records.now) result }
{
    let mut count: usize = 0;
    for i in 0..records.len() / wires::SIZE {
        let weight = weigh(records, plan, rewrites, i);
        if weight == NO_COUNT {
            return Err(Endless { index: i });
        }
        count += usize::from(weight);
    }
    Ok(count.min(usize::from(COUNT_LIMIT)))
}

// How many wires enter nodes that stay.
fn count_kept(records: &[u8], actions: &[u8; limit::NODES]) -> usize
    requires { Within (wires_of records.now) }
    ensures { result ≡ length (kept_wires actions.now (wires_of records.now)) }
{
    let mut count: usize = 0;
    for i in 0..records.len() / wires::SIZE {
        count += usize::from(actions[access::wire(records, i).target.node_id] == KEPT);
    }
    count
}

// Wires are weighed only where a Select or a Branch is planned: else each stays, or goes with its target.
pub fn scan(
    records: &[u8],
    nodes: usize,
    plan: &Plan,
    rewrites: &Rewrites,
) -> Result<usize, Endless>
    requires { Scannable (wires_of records.now) plan.now.actions rewrites.now.sources rewrites.now.counts × (nodes ≤ max_nodes) }
    ensures { (details : List ℕ) → Filled (wires_of records.now) nodes plan.now.actions details rewrites.now.sources rewrites.now.counts → Tallied (shape_of (wires_of records.now) plan.now.actions details) nodes (wires_of records.now) result }
{
    if state::any_above(&plan.actions, nodes, BECOME_LITERAL) {
        return weigh_all(records, plan, rewrites);
    }
    Ok(count_kept(records, &plan.actions))
}
