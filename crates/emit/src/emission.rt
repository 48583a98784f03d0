// The writing of the rewritten wires by chains that Branches may share.
ghost use Rattle.std.specs.Prelude.{List, ◌+◌, ◌*◌, ◌≤◌, ◌<◌, length, get_or};
ghost use Rattle.ir.specs.declared.PortRef.{PortRef};
ghost use Rattle.encoding.specs.Numbers.{Written};
ghost use Rattle.encoding.specs.Wires.{wire_bytes};
ghost use Rattle.records.specs.Access.{no_wire};
ghost use Rattle.model.specs.Answer.{each};
ghost use Rattle.emit.specs.Emit.{fan};
ghost use Rattle.emit.specs.Emission.{wires_in, targets_in, wires_for, all_wires, Stands, AtLeaf, IsPrepared, IsEmpty, Descends, Fans, Emits};

use crate::stack::Stack;
use encoding::wires as wire_records;
use ir::{PortRef, Wire, limit};
use records::access::Wires;
use rewrite::{Origin, Rewrites, counts, sources};
use state::{KEPT, Plan, TRUNCATE};

// What the rewritten wires are written from: the wires, the plan, what is known of their rewriting, and the first code of each Branch's chain.
#[derive(Clone, Copy)]
pub struct Emission<'a> {
    pub wires: &'a Wires<'a>,
    pub plan: &'a Plan,
    pub rewrites: &'a Rewrites,
    pub first: &'a [u16; limit::NODES],
}

impl<'a> Emission<'a> {
    // From wire i down the chains of the Branches to the first unplanned target: the wire into it. What is left of each chain is stacked.
    fn descend(&self, stack: &mut Stack, i: usize) -> usize
        requires { Descends self.now stack.old i }
        ensures { (ts : List PortRef) → Stands self.now stack.old i ts → AtLeaf self.now stack.new result ts }
    {
        let mut wire = i;
        let mut steps = self.wires.nodes;
        let mut target = self.wires.get(wire).target.node_id;
        while self.plan.actions[target] == TRUNCATE {
            wire = usize::from(self.first[target]) - 1;
            stack.push(self.rewrites.chains.next[wire]);
            target = self.wires.get(wire).target.node_id;
            steps -= 1;
        }
        wire
    }

    // Writes the wire from a source to the target of wire i.
    fn write_leaf(&self, source: PortRef, i: usize, out: &mut [u8], at: usize) -> usize
        requires { (i < length (wires_in self.now)) × (at + 7 ≤ length out.old) }
        ensures { Written (wire_bytes (record { source = source; target = (get_or (wires_in self.now) i no_wire).target })) out.old out.new at result }
    {
        let target = self.wires.get(i).target;
        wire_records::write_wire(out, at, Wire { source, target })
    }

    // Writes the wires from a source to the `count` unplanned targets that wire i leads to.
    fn write_targets(
        &self,
        stack: &mut Stack,
        source: PortRef,
        i: usize,
        count: usize,
        out: &mut [u8],
        at: usize,
    ) -> usize
        requires { Fans self.now stack.old i count at (length out.old) }
        ensures empty { IsEmpty stack.new }
        ensures written { Written (each wire_bytes (fan source (targets_in self.now i))) out.old out.new at result }
    {
        let mut wire = i;
        let mut past = at;
        for _ in 0..count {
            let leaf = self.descend(stack, wire);
            past = self.write_leaf(source, leaf, out, past);
            wire = stack.pop(&self.rewrites.chains.next);
        }
        past
    }

    // Writes the wires that wire i, into a planned node, becomes.
    fn write_planned(&self, stack: &mut Stack, i: usize, out: &mut [u8], at: usize) -> usize
        requires { Emits self.now stack.old i at (length out.old) }
        ensures empty { IsEmpty stack.new }
        ensures written { Written (each wire_bytes (wires_for self.now i)) out.old out.new at result }
    {
        let wire = self.wires.get(i);
        let count = usize::from(counts::count_at(
            &self.plan.actions,
            &self.rewrites.counts,
            wire.target,
        ));
        if count == 0 {
            return at;
        }
        match sources::origin(
            self.wires.records,
            &self.plan.actions,
            &self.rewrites.sources,
            wire.source,
        ) {
            Origin::Cycles | Origin::Drops => at,
            Origin::From(source) => self.write_targets(stack, source, i, count, out, at),
        }
    }

    // Writes the wires that wire i becomes.
    fn write_wire(&self, stack: &mut Stack, i: usize, out: &mut [u8], at: usize) -> usize
        requires { Emits self.now stack.old i at (length out.old) }
        ensures empty { IsEmpty stack.new }
        ensures written { Written (each wire_bytes (wires_for self.now i)) out.old out.new at result }
    {
        let wire = self.wires.get(i);
        let target = wire.target;
        if self.plan.actions[target.node_id] != KEPT {
            return self.write_planned(stack, i, out, at);
        }
        match sources::origin(
            self.wires.records,
            &self.plan.actions,
            &self.rewrites.sources,
            wire.source,
        ) {
            Origin::Cycles | Origin::Drops => at,
            Origin::From(source) => wire_records::write_wire(out, at, Wire { source, target }),
        }
    }

    // Writes the rewritten wires.
    pub fn write_all(&self, out: &mut [u8], at: usize) -> usize
        requires { IsPrepared self.now × (at + 7 * length (all_wires self.now) ≤ length out.old) }
        ensures { Written (each wire_bytes (all_wires self.now)) out.old out.new at result }
    {
        let mut stack = Stack::new();
        let mut past = at;
        for i in 0..self.wires.len() {
            past = self.write_wire(&mut stack, i, out, past);
        }
        past
    }
}
