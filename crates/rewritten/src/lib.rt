// The rewritten wires of a graph whose worklist is done, as records at the front of a lent buffer.
#![tactic(auto)]

ghost use Rattle.rewritten.specs.Rewritten.{Given, Rewrites, Countable, Keeps};

use emit::kept;
use encoding::wires as wire_records;
use graph::Refusal;
use ir::limit;
use records::access::Records;
use state::Plan;

// How many bytes the records of 4,096 wires have.
pub const WIRE_BYTES: usize = wire_records::SIZE * limit::WIRES;

// Question 10 of the rewritten wires, and their records. `count` is how many there are, 4,097 for more than 4,096.
fn write_wires(
    records: &Records,
    plan: &Plan,
    rewrites: &rewrite::Rewrites,
    count: usize,
    buffer: &mut [u8; WIRE_BYTES],
) -> Result<usize, Refusal>
    requires { Countable records.now.input.now records.now.counts plan.now.actions plan.now.details rewrites.now.sources rewrites.now.counts rewrites.now.chains.first rewrites.now.chains.next count buffer.old }
    ensures { Rewrites records.now.input.now records.now.counts plan.now.actions plan.now.details buffer.old buffer.new result }
{
    if limit::WIRES < count {
        return Err(Refusal::NoSpace);
    }
    let wires = records.wires();
    emit::write_wires(&wires, plan, rewrites, buffer, 0);
    Ok(count)
}

// Question 9, then 10 of the rewritten wires, and their records.
fn rewrite_planned(
    records: &Records,
    plan: &Plan,
    buffer: &mut [u8; WIRE_BYTES],
) -> Result<usize, Refusal>
    requires { Given records.now.input.now records.now.counts plan.now.actions plan.now.details buffer.old }
    ensures { Rewrites records.now.input.now records.now.counts plan.now.actions plan.now.details buffer.old buffer.new result }
{
    let wires = records.wires();
    let mut rewrites = rewrite::Rewrites::new();
    match rewrite::rewrite(&wires, plan, &mut rewrites) {
        Err(endless) => {
            let place = records.wires_offset() + wire_records::SIZE * endless.index;
            Err(Refusal::Endless(place))
        }
        Ok(count) => write_wires(records, plan, &rewrites, count, buffer),
    }
}

// The wires where neither a Select nor a Branch is planned: every wire's rewriting ends, and they only get fewer.
fn write_kept(
    records: &Records,
    plan: &Plan,
    buffer: &mut [u8; WIRE_BYTES],
) -> Result<usize, Refusal>
    requires { Keeps records.now.input.now records.now.counts plan.now.actions plan.now.details buffer.old }
    ensures { Rewrites records.now.input.now records.now.counts plan.now.actions plan.now.details buffer.old buffer.new result }
{
    folding::bytes_fit(records.input);
    let wires = records.wires();
    let length = kept::write_wires(&wires, &plan.actions, buffer, 0);
    Ok(length / wire_records::SIZE)
}

// Questions 9 and 10 of the rewritten wires, and their records. A refusal leaves the buffer as it was.
pub fn rewrite_graph(
    records: &Records,
    plan: &Plan,
    buffer: &mut [u8; WIRE_BYTES],
) -> Result<usize, Refusal>
    requires { Given records.now.input.now records.now.counts plan.now.actions plan.now.details buffer.old }
    ensures { Rewrites records.now.input.now records.now.counts plan.now.actions plan.now.details buffer.old buffer.new result }
{
    if !state::any_above(&plan.actions, records.counts.nodes, state::BECOME_LITERAL) {
        return write_kept(records, plan, buffer);
    }
    rewrite_planned(records, plan, buffer)
}
