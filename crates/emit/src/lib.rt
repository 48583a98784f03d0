// The rewritten wires, written into the caller's buffer.
#![tactic(auto)]

ghost use Rattle.std.specs.Prelude.{◌≡◌, ◌+◌, ◌*◌, ◌≤◌, ◌<◌, length, get_or};
ghost use Rattle.encoding.specs.Numbers.{Written};
ghost use Rattle.encoding.specs.Wires.{wire_bytes};
ghost use Rattle.records.specs.Access.{wires_of};
ghost use Rattle.model.specs.Answer.{each};
ghost use Rattle.model.specs.Rewrite.{rewrite_wires};
ghost use Rattle.state.specs.Planned.{shape_of};
ghost use Rattle.emit.specs.Emit.{or_nil, EmitsAll};

use emission::Emission;
use records::access::Wires;
use rewrite::Rewrites;
use state::Plan;

mod emission;
pub mod kept;
pub mod sharing;
mod stack;

// Writes the rewritten wires.
pub fn write_wires(
    wires: &Wires,
    plan: &Plan,
    rewrites: &Rewrites,
    out: &mut [u8],
    at: usize,
) -> usize
    requires { EmitsAll (wires_of wires.now.records.now) wires.now.nodes plan.now.actions plan.now.details rewrites.now.sources rewrites.now.counts rewrites.now.chains.first rewrites.now.chains.next at (length out.old) }
    ensures { Written (each wire_bytes (or_nil (rewrite_wires (shape_of (wires_of wires.now.records.now) plan.now.actions plan.now.details) wires.now.nodes (wires_of wires.now.records.now)))) out.old out.new at result }
{
    let mut first = rewrites.chains.first;
    sharing::share_chains(wires.records, wires.nodes, plan, rewrites, &mut first);
    let emission = Emission {
        wires,
        plan,
        rewrites,
        first: &first,
    };
    emission.write_all(out, at)
}
