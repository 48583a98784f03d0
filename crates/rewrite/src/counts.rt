// How many unplanned targets each planned Branch leads to.
ghost use Rattle.std.specs.Prelude.{◌≡◌, ℕ, ◌+◌, ◌<◌, ◌≤◌, length, get_or, set, replicate};
ghost use Rattle.ir.specs.Limits.{max_nodes};
ghost use Rattle.records.specs.Access.{wires_of, no_wire};
ghost use Rattle.model.specs.TargetCounts.{cap};
ghost use Rattle.state.specs.Planned.{Shaped};
ghost use Rattle.rewrite.specs.Counts.{no_count, count_in, Counts};
ghost use Rattle.rewrite.specs.Taken.{Later, Taken};
ghost use Rattle.rewrite.specs.Live.{Live};
ghost use Rattle.rewrite.specs.Search.{unseen, Walks, Sought, Stepped, Visited};

use crate::{COUNT_LIMIT, NO_COUNT, chains, has_action};
use ir::{PortRef, limit, port};
use records::access::Wires;
use state::{KEPT, Plan, TRUNCATE};
use wire_index::Chains;

// What a Branch has before the search comes to it.
const UNSEEN: u16 = 4099;

// How far a walk along a chain came: the code of the wire where it stopped, 0 at the end, and the sum of the counts before that wire.
#[derive(Clone, Copy)]
pub struct Reached {
    pub code: u16,
    pub sum: u16,
}

// The count at a target.
#[tactic(auto, unfolding(crate::specs::Counts::count_in))]
pub fn count_at(actions: &[u8; limit::NODES], counts: &[u16; limit::NODES], target: PortRef) -> u16
    requires { target.node_id < max_nodes }
    ensures { result ≡ count_in actions.now counts.now target }
{
    match actions[target.node_id] {
        KEPT => 1,
        TRUNCATE if target.port == port::EXEC => counts[target.node_id],
        _ => 0,
    }
}

// Adds up the counts along a chain, from a code on, until a wire has none.
fn walk(
    wires: &Wires,
    actions: &[u8; limit::NODES],
    counts: &[u16; limit::NODES],
    next: &[u16; limit::WIRES],
    from: Reached,
) -> Reached
    requires { Later (wires_of wires.now.records.now) next.now × (from.code ≤ length (wires_of wires.now.records.now)) × (from.sum < no_count) }
    ensures { Walks (wires_of wires.now.records.now) actions.now counts.now next.now from.code from.sum result }
{
    let mut code = from.code;
    let mut sum = from.sum;
    while 0 < code {
        let i = usize::from(code) - 1;
        let count = count_at(actions, counts, wires.get(i).target);
        if NO_COUNT <= count {
            break;
        }
        sum = (sum + count).min(COUNT_LIMIT);
        code = next[i];
    }
    Reached { code, sum }
}

// The search for the counts, depth first along the taken wires: how far each Branch has come along its chain, its count, the sum of the counts
// that it has passed, and the stack of the Branches that wait for a count.
#[derive(Drop)]
struct Search {
    first: [u16; limit::NODES],
    counts: [u16; limit::NODES],
    sums: [u16; limit::NODES],
    stack: [u16; limit::NODES],
    depth: usize,
}

impl Search {
    // A Branch goes on the stack.
    fn enter(&mut self, branch: usize)
        requires { (self.old.depth < max_nodes) × (branch < max_nodes) }
        ensures { self.new ≡ record { first = self.old.first; counts = set self.old.counts branch no_count; sums = set self.old.sums branch 0; stack = set self.old.stack self.old.depth branch; depth = self.old.depth + 1 } }
    {
        self.counts[branch] = NO_COUNT;
        self.sums[branch] = 0;
        self.stack[self.depth] = branch as u16;
        self.depth += 1;
    }

    // The Branch on top of the stack gets its count, or waits for that of another, which goes on the stack, or leads into a cycle, and so does all of
    // the stack.
    fn step(&mut self, wires: &Wires, actions: &[u8; limit::NODES], next: &[u16; limit::WIRES])
        requires { Sought (wires_of wires.now.records.now) actions.now next.now self.old × (0 < self.old.depth) }
        ensures { Stepped (wires_of wires.now.records.now) actions.now next.now self.old self.new }
    {
        let branch = usize::from(self.stack[self.depth - 1]);
        let from = Reached {
            code: self.first[branch],
            sum: self.sums[branch],
        };
        let walked = walk(wires, actions, &self.counts, next, from);
        if walked.code == 0 {
            self.counts[branch] = walked.sum;
            self.depth -= 1;
            return;
        }
        let target = wires.get(usize::from(walked.code) - 1).target.node_id;
        if self.counts[target] != UNSEEN {
            self.depth = 0;
            return;
        }
        self.first[branch] = walked.code;
        self.sums[branch] = walked.sum;
        self.enter(target);
    }

    // The counts of a node and of all that it leads to, where it is a planned Branch that is not seen.
    fn visit(
        &mut self,
        wires: &Wires,
        actions: &[u8; limit::NODES],
        next: &[u16; limit::WIRES],
        node: usize,
    )
        requires { Sought (wires_of wires.now.records.now) actions.now next.now self.old × (self.old.depth ≡ 0) × (node < max_nodes) }
        ensures { Visited (wires_of wires.now.records.now) actions.now next.now self.old self.new × (self.new.depth ≡ 0) × (get_or actions.now node 0 ≡ 3 → get_or self.new.counts node 0 ≤ no_count) }
    {
        if actions[node] != TRUNCATE || self.counts[node] != UNSEEN {
            return;
        }
        self.enter(node);
        while 0 < self.depth {
            self.step(wires, actions, next);
        }
    }

    fn visit_all(&mut self, wires: &Wires, actions: &[u8; limit::NODES], next: &[u16; limit::WIRES])
        requires { Sought (wires_of wires.now.records.now) actions.now next.now self.old × (self.old.depth ≡ 0) }
        ensures { Visited (wires_of wires.now.records.now) actions.now next.now self.old self.new × (self.new.depth ≡ 0) × ((b : ℕ) → b < wires.now.nodes → get_or actions.now b 0 ≡ 3 → get_or self.new.counts b 0 ≤ no_count) }
    {
        for node in 0..wires.nodes {
            self.visit(wires, actions, next, node);
        }
    }
}

// The counts, by the chains of the taken wires.
fn count_all(
    wires: &Wires,
    plan: &Plan,
    chains: &Chains<{ limit::NODES }>,
    counts: &mut [u16; limit::NODES],
)
    requires { Shaped (wires_of wires.now.records.now) wires.now.nodes plan.now.actions plan.now.details × Taken (wires_of wires.now.records.now) plan.now.actions plan.now.details chains.now.first chains.now.next }
    ensures { Counts (wires_of wires.now.records.now) wires.now.nodes plan.now.actions plan.now.details counts.new }
{
    let mut search = Search {
        first: chains.first,
        counts: [UNSEEN; limit::NODES],
        sums: [0u16; limit::NODES],
        stack: [0u16; limit::NODES],
        depth: 0,
    };
    search.visit_all(wires, &plan.actions, &chains.next);
    *counts = search.counts;
}

// The counts, and then the chains of the taken wires that lead to some unplanned target.
pub fn fill(
    wires: &Wires,
    plan: &Plan,
    counts: &mut [u16; limit::NODES],
    chains: &mut Chains<{ limit::NODES }>,
)
    requires { Shaped (wires_of wires.now.records.now) wires.now.nodes plan.now.actions plan.now.details }
    ensures { Counts (wires_of wires.now.records.now) wires.now.nodes plan.now.actions plan.now.details counts.new × Live (wires_of wires.now.records.now) plan.now.actions plan.now.details counts.new chains.new.first chains.new.next }
{
    chains.next = [0u16; limit::WIRES];
    if !has_action(&plan.actions, wires.nodes, TRUNCATE) {
        return;
    }
    chains::link_all(
        wires.records,
        |wire| chains::is_taken(plan, wire.source),
        chains,
    );
    count_all(wires, plan, chains, counts);
    chains::link_all(
        wires.records,
        |wire| {
            chains::is_taken(plan, wire.source) && 0 < count_at(&plan.actions, counts, wire.target)
        },
        chains,
    );
}
