// The rewriting of wires by the plan: where each wire's source comes to, how many unplanned targets each wire leads to, and how many wires there
// are at the end.
#![tactic(auto)]

ghost use Rattle.std.specs.Prelude.{◌≡◌, true, false, ℕ, ◌<◌, ◌≤◌, get_or};
ghost use Rattle.ir.specs.Limits.{max_nodes};
ghost use Rattle.records.specs.Access.{wires_of};
ghost use Rattle.state.specs.Planned.{shape_of, Shaped};
ghost use Rattle.rewrite.specs.Rewritable.{HasAction, Rewritable};
ghost use Rattle.rewrite.specs.Tallied.{Tallied};

pub mod chains;
pub mod counts;
pub mod sources;
pub mod tally;

use ir::{PortRef, limit};
use records::access::Wires;
use state::Plan;
use wire_index::Chains;

// Where counts stop.
pub const COUNT_LIMIT: u16 = 4097;

// What a Branch that leads into a cycle has for a count.
pub const NO_COUNT: u16 = 4098;

// Where a wire's source comes to.
#[derive(Clone, Copy)]
pub enum Origin {
    Cycles,
    Drops,
    From(PortRef),
}

// The number of the first wire whose rewriting does not end.
#[derive(Clone, Copy)]
pub struct Endless {
    pub index: usize,
}

// What an emission of the rewritten wires needs: for each planned Select the number of the wire that its source comes to, for each planned Branch
// the count of its unplanned targets, and the chains of the taken wires that lead to one.
#[derive(Drop)]
pub struct Rewrites {
    pub sources: [u16; limit::NODES],
    pub counts: [u16; limit::NODES],
    pub chains: Chains<{ limit::NODES }>,
}

impl Rewrites {
    pub fn new() -> Self {
        Rewrites {
            sources: [0u16; limit::NODES],
            counts: [0u16; limit::NODES],
            chains: Chains::new(),
        }
    }
}

// Whether this is planned of some node.
pub fn has_action(actions: &[u8; limit::NODES], nodes: usize, action: u8) -> bool
    requires { nodes ≤ max_nodes }
    ensures nowhere { result ≡ false → (m : ℕ) → m < nodes → get_or actions.now m 0 ≡ action → ⊥ }
    ensures somewhere { result ≡ true → HasAction actions.now nodes action }
{
    actions[..nodes]
        .iter()
        .fold(false, |found, a| found | (*a == action))
}

// Questions 9 and 10: how many wires there are at the end, 4097 for more than 4096.
pub fn rewrite(wires: &Wires, plan: &Plan, rewrites: &mut Rewrites) -> Result<usize, Endless>
    requires { Shaped (wires_of wires.now.records.now) wires.now.nodes plan.now.actions plan.now.details }
    ensures { Tallied (shape_of (wires_of wires.now.records.now) plan.now.actions plan.now.details) wires.now.nodes (wires_of wires.now.records.now) result × Rewritable (wires_of wires.now.records.now) wires.now.nodes plan.now.actions plan.now.details rewrites.new.sources rewrites.new.counts rewrites.new.chains.first rewrites.new.chains.next }
{
    sources::fill(wires, plan, &mut rewrites.sources);
    counts::fill(wires, plan, &mut rewrites.counts, &mut rewrites.chains);
    tally::scan(wires.records, wires.nodes, plan, rewrites)
}
