// Which nodes are eligible.
ghost use Rattle.std.specs.Prelude.{◌≡◌, ℕ, ◌≤◌, ◌<◌, length};
ghost use Rattle.ir.specs.Limits.{max_nodes};
ghost use Rattle.graph.specs.Decode.{graph_of};
ghost use Rattle.sweep.specs.Eligible.{is_pure};
ghost use Rattle.sweep.specs.Queue.{eligible_in, eligible_by, eligible_at};

use ir::{class, flag, limit};
use records::access;
use state::{BECOME_LITERAL, KEPT};

// Whether a node of the class only gives a value.
fn is_pure(class: u8) -> bool
    ensures { result ≡ is_pure class }
{
    (class == class::LITERAL) | class::is_gate(class)
}

// Whether a node is eligible, by what is planned of it.
fn is_eligible(class: u8, flags: u8, action: u8) -> bool
    ensures { result ≡ eligible_by class flags action }
{
    if flag::is_nofold(flags) {
        return false;
    }
    if flag::is_labelled(flags) {
        return false;
    }
    if action == KEPT {
        return is_pure(class);
    }
    action == BECOME_LITERAL
}

// Whether node n is eligible.
fn node_eligible(input: &[u8], actions: &[u8; limit::NODES], n: usize) -> bool
    requires { (n < length (graph_of input.now).nodes) × (length (graph_of input.now).nodes ≤ max_nodes) }
    ensures { result ≡ eligible_at (graph_of input.now) actions.now n }
{
    let node = access::node(input, n);
    is_eligible(node.class, node.flags, actions[n])
}

// Marks the eligible nodes.
pub fn mark(
    input: &[u8],
    nodes: usize,
    actions: &[u8; limit::NODES],
    eligible: &mut [bool; limit::NODES],
)
    requires { (nodes ≡ length (graph_of input.now).nodes) × (nodes ≤ max_nodes) }
    ensures { (n : ℕ) → eligible_in eligible.new n ≡ eligible_at (graph_of input.now) actions.now n }
{
    *eligible = [false; limit::NODES];
    for n in 0..nodes {
        eligible[n] = node_eligible(input, actions, n);
    }
}
