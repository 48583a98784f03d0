// The queue of the nodes that are taken.
ghost use Rattle.std.specs.Prelude.{◌≡◌, ℕ, ◌+◌, ◌≤◌, ◌<◌, get_or};
ghost use Rattle.ir.specs.Limits.{max_nodes};
ghost use Rattle.records.specs.Access.{wires_of};
ghost use Rattle.wire_index.specs.Linking.{Targets};
ghost use Rattle.sweep.specs.Queue.{Queued, Released, Fell, fed_by, leaving, Sweeping, Within, Marked};

use ir::limit;
use records::access::Wires;
use wire_index::Chains;

// The nodes that are taken, in the first `tail` places of `order` and by marks, and what they are found by: the eligible nodes, and the degree of each.
#[derive(Drop)]
pub struct Queue<'a> {
    pub eligible: &'a [bool; limit::NODES],
    pub degrees: [u16; limit::NODES],
    pub taken: [bool; limit::NODES],
    pub order: [u16; limit::NODES],
    pub tail: usize,
    ghost queued: { Queued eligible.now degrees taken order tail },
}

impl<'a> Queue<'a> {
    // No node is found yet, and each degree is 1.
    pub fn new(eligible: &'a [bool; limit::NODES]) -> Self
        ensures same { result.eligible ≡ eligible.entry }
        ensures empty { result.tail ≡ 0 }
        ensures degrees { (n : ℕ) → n < max_nodes → get_or result.degrees n 0 ≡ 1 }
    {
        Queue {
            eligible,
            degrees: [1; limit::NODES],
            taken: [false; limit::NODES],
            order: [0; limit::NODES],
            tail: 0,
        }
    }

    // Each degree grows by the wires that leave the node.
    pub fn count_wires(&mut self, wires: &Wires)
        requires { (self.old.tail ≡ 0) × ((n : ℕ) → n < max_nodes → get_or self.old.degrees n 0 ≡ 1) }
        ensures same { self.new.eligible ≡ self.old.eligible }
        ensures empty { self.new.tail ≡ 0 }
        ensures degrees { (n : ℕ) → n < max_nodes → get_or self.new.degrees n 0 ≡ 1 + leaving (wires_of wires.now.records.now) n }
    {
        for i in 0..wires.len() {
            self.degrees[wires.get(i).source.node_id] += 1;
        }
    }

    // One wire less leaves node n. Where it was the last, and the node is eligible, the node is taken.
    pub fn release(&mut self, n: usize)
        requires { (n < max_nodes) × (0 < get_or self.old.degrees n 0) }
        ensures same { self.new.eligible ≡ self.old.eligible }
        ensures released { Released n self.old.degrees self.old.order self.old.tail self.new.degrees self.new.order self.new.tail }
    {
        let degree = self.degrees[n] - 1;
        self.degrees[n] = degree;
        if degree != 0 {
            return;
        }
        if !self.eligible[n] {
            return;
        }
        self.taken[n] = true;
        self.order[self.tail] = n as u16;
        self.tail += 1;
    }

    // Finds the eligible nodes that no wire leaves.
    pub fn release_nodes(&mut self, nodes: usize)
        requires { (nodes ≤ max_nodes) × ((n : ℕ) → n < nodes → 0 < get_or self.old.degrees n 0) }
        ensures same { self.new.eligible ≡ self.old.eligible }
        ensures fell { Fell nodes (λ _. 1) self.old.degrees self.old.order self.old.tail self.new.degrees self.new.order self.new.tail }
    {
        for n in 0..nodes {
            self.release(n);
        }
    }

    // The wires into a node go with it.
    pub fn release_sources(
        &mut self,
        wires: &Wires,
        targets: &Chains<{ limit::NODES }>,
        node: usize,
    )
        requires { Targets (wires_of wires.now.records.now) targets.now.first targets.now.next × (node < max_nodes) × ((n : ℕ) → n < wires.now.nodes → fed_by (wires_of wires.now.records.now) node n ≤ get_or self.old.degrees n 0) }
        ensures same { self.new.eligible ≡ self.old.eligible }
        ensures fell { Fell wires.now.nodes (fed_by (wires_of wires.now.records.now) node) self.old.degrees self.old.order self.old.tail self.new.degrees self.new.order self.new.tail }
    {
        let mut code = usize::from(targets.first[node]);
        while code != 0 {
            self.release(wires.get(code - 1).source.node_id);
            code = usize::from(targets.next[code - 1]);
        }
    }

    // Removes the nodes that were found, and those that are found on the way.
    pub fn remove_nodes(&mut self, wires: &Wires, targets: &Chains<{ limit::NODES }>)
        requires { Targets (wires_of wires.now.records.now) targets.now.first targets.now.next × Within wires.now.nodes self.old.eligible.now × Sweeping wires.now.nodes (wires_of wires.now.records.now) self.old.eligible.now self.old.degrees self.old.order 0 self.old.tail }
        ensures { Marked wires.now.nodes (wires_of wires.now.records.now) self.old.eligible.now self.new.taken }
    {
        let mut head = 0;
        while head < self.tail {
            self.release_sources(wires, targets, usize::from(self.order[head]));
            head += 1;
        }
    }
}
