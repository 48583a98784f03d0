// Chains that Branches share: a planned Branch whose only live wire enters another takes over that one's chain, so that a walk down the chains
// passes no Branch without adding to what it writes.
ghost use Rattle.std.specs.Prelude.{◌≡◌, ◌<◌, ◌≤◌, ℕ};
ghost use Rattle.ir.specs.Limits.{max_nodes};
ghost use Rattle.records.specs.Access.{wires_of};
ghost use Rattle.emit.specs.Emit.{Starts, Entered, Shared, Branches};

use ir::limit;
use records::access;
use rewrite::{NO_COUNT, Rewrites, has_action};
use state::{Plan, TRUNCATE};

// The planned Branch whose chain planned Branch b may take over, as b's only live wire enters it.
fn entered(
    records: &[u8],
    plan: &Plan,
    rewrites: &Rewrites,
    first: &[u16; limit::NODES],
    b: usize,
) -> Option<usize>
    requires { Starts (wires_of records.now) plan.now.actions first.now × (b < max_nodes) }
    ensures { (t : ℕ) → result ≡ Some t → Entered (wires_of records.now) plan.now.actions first.now rewrites.now.chains.next b t }
{
    if plan.actions[b] != TRUNCATE {
        return None;
    }
    let code = first[b];
    if code == 0 {
        return None;
    }
    let wire = usize::from(code) - 1;
    if rewrites.chains.next[wire] != 0 {
        return None;
    }
    let target = access::wire(records, wire).target.node_id;
    if plan.actions[target] != TRUNCATE {
        return None;
    }
    Some(target)
}

// Branch b takes over the chain of the Branch that its only live wire enters.
fn share(
    records: &[u8],
    plan: &Plan,
    rewrites: &Rewrites,
    first: &mut [u16; limit::NODES],
    b: usize,
)
    requires { Starts (wires_of records.now) plan.now.actions first.old × (b < max_nodes) }
    ensures { Shared (wires_of records.now) plan.now.actions rewrites.now.chains.next first.old first.new }
{
    let Some(target) = entered(records, plan, rewrites, first, b) else {
        return;
    };
    first[b] = first[target];
}

// Stacks the Branches of the row from Branch b on, each of which may take over the chain of the one after it; how many there are.
fn stack_row(
    records: &[u8],
    nodes: usize,
    plan: &Plan,
    rewrites: &Rewrites,
    first: &[u16; limit::NODES],
    stack: &mut [u16; limit::NODES],
    b: usize,
) -> usize
    requires { Starts (wires_of records.now) plan.now.actions first.now × (nodes ≤ max_nodes) × (b < max_nodes) × Branches stack.old 0 }
    ensures { Branches stack.new result }
{
    let mut branch = b;
    for depth in 0..nodes {
        stack[depth] = branch as u16;
        let Some(target) = entered(records, plan, rewrites, first, branch) else {
            return depth + 1;
        };
        branch = target;
    }
    nodes
}

// The Branches of the row from Branch b on take over the chain at its end, the last first. A Branch without a count leads into a cycle, and takes none.
fn share_row(
    records: &[u8],
    nodes: usize,
    plan: &Plan,
    rewrites: &Rewrites,
    first: &mut [u16; limit::NODES],
    stack: &mut [u16; limit::NODES],
    b: usize,
)
    requires { Starts (wires_of records.now) plan.now.actions first.old × (nodes ≤ max_nodes) × (b < max_nodes) × Branches stack.old 0 }
    ensures { Shared (wires_of records.now) plan.now.actions rewrites.now.chains.next first.old first.new × Branches stack.new 0 }
{
    if NO_COUNT <= rewrites.counts[b] {
        return;
    }
    let depth = stack_row(records, nodes, plan, rewrites, first, stack, b);
    for k in (0..depth).rev() {
        share(records, plan, rewrites, first, usize::from(stack[k]));
    }
}

// All Branches, from the last down: a row in number order is one step each.
pub fn share_chains(
    records: &[u8],
    nodes: usize,
    plan: &Plan,
    rewrites: &Rewrites,
    first: &mut [u16; limit::NODES],
)
    requires { Starts (wires_of records.now) plan.now.actions first.old × (nodes ≤ max_nodes) }
    ensures { Shared (wires_of records.now) plan.now.actions rewrites.now.chains.next first.old first.new }
{
    if !has_action(&plan.actions, nodes, TRUNCATE) {
        return;
    }
    let mut stack = [0u16; limit::NODES];
    for b in (0..nodes).rev() {
        share_row(records, nodes, plan, rewrites, first, &mut stack, b);
    }
}
