// The fold with the stage that takes the nodes that feed nothing.
#![tactic(auto)]

ghost use Rattle.std.specs.Prelude.{◌≡◌, ℕ, ◌*◌, ◌≤◌, length, take, drop};
ghost use Rattle.std.proofs.Math.ListN as ListN;
ghost use Rattle.ir.specs.Limits.{max_wires, max_answer};
ghost use Rattle.graph.specs.Decode.{accepted, decode, graph_of};
ghost use Rattle.graph.specs.Index.{Indexed};
ghost use Rattle.model.specs.Offer.{literals};
ghost use Rattle.model.specs.Worklist.{after, Waiting};
ghost use Rattle.model.specs.Outcome.{numbers_of, written};
ghost use Rattle.propagation.specs.Propagation.{Settled};
ghost use Rattle.folding.specs.Entry.{IsCase, numbers, Answers};
ghost use Rattle.folding.specs.Demands.{RefusalsBy, EndlessAt, Accepted, OrderFree, AnswerBy, PopsOf, FinitePlan, BranchesUnknown, TooManyWires};
ghost use Rattle.sweep.specs.Swept.{swept_bytes};
ghost use Rattle.swept.specs.Entry.{swept_outcome, Emitted, Sweepable, Removes, Swept};
ghost use Rattle.swept.specs.Demands.{AnyOrderOf, AnyRun, CleanLeft};

use encoding::wires as wire_records;
use folding::{Folded, Outcome};
use graph::{Refusal, SLOTS};
use ir::limit;
use records::access::{Records, Wires};
use rewritten::WIRE_BYTES;
use state::{Known, Plan};

// Marks the nodes that are taken, and gives them the action of those that are removed.
pub fn sweep_graph(
    records: &Records,
    actions: &[u8; limit::NODES],
    wires: &Wires,
    taken: &mut [bool; limit::NODES],
    swept: &mut [u8; limit::NODES],
)
    requires { Sweepable records.now.input.now records.now.counts actions.now wires.now.records.now × (wires.now.nodes ≡ records.now.counts.nodes) }
    ensures { Removes records.now.input.now actions.now wires.now.records.now swept.new taken.new }
{
    let mut eligible = [false; limit::NODES];
    sweep::eligible::mark(records.input, records.counts.nodes, actions, &mut eligible);
    sweep::sweep_dead_pure(wires, &eligible, taken);
    sweep::fates::remove(taken, actions, swept);
}

// Question 10 of the answer, and the answer.
fn write_swept(
    records: &Records,
    known: &Known,
    swept: &[u8; limit::NODES],
    wires: &Wires,
    taken: &[bool; limit::NODES],
    pops: usize,
    out: &mut [u8],
) -> Outcome
    requires { Swept records.now.input.now records.now.counts known.now.kinds known.now.words swept.now wires.now.records.now taken.now pops }
    ensures { Answers swept_outcome records.now.input.now out.old out.new result }
{
    let nodes = records.counts.nodes;
    let left = sweep::wires::count(wires, taken);
    if !folding::holds(known, swept, nodes, left, out.len()) {
        return Err(Refusal::NoSpace);
    }
    let past = answer::write_nodes(known, swept, nodes, out);
    let length = sweep::wires::write(wires, taken, out, past);
    Ok(Folded { length, pops })
}

// The answer of a graph whose `count` rewritten wires stand at the front of the buffer.
fn answer_swept(
    records: &Records,
    known: &Known,
    plan: &Plan,
    buffer: &[u8],
    count: usize,
    pops: usize,
    out: &mut [u8],
) -> Outcome
    requires { Emitted records.now.input.now records.now.counts known.now.kinds known.now.words plan.now.actions plan.now.details (take (7 * count) buffer.now) pops × (7 * count ≤ length buffer.now) }
    ensures { Answers swept_outcome records.now.input.now out.old out.new result }
{
    let wires = Wires {
        records: &buffer[..wire_records::SIZE * count],
        nodes: records.counts.nodes,
    };
    let mut taken = [false; limit::NODES];
    let mut swept = [0u8; limit::NODES];
    sweep_graph(records, &plan.actions, &wires, &mut taken, &mut swept);
    write_swept(records, known, &swept, &wires, &taken, pops, out)
}

// Questions 9 and 10 of the rewritten wires, and the answer.
fn rewrite_graph(
    records: &Records,
    known: &Known,
    plan: &Plan,
    pops: usize,
    buffer: &mut [u8; WIRE_BYTES],
    out: &mut [u8],
) -> Outcome
    requires { Settled records.now.input.now (literals (graph_of records.now.input.now)) records.now.counts known.now.kinds known.now.words plan.now.actions plan.now.details pops × (length buffer.old ≡ 7 * max_wires) }
    ensures { Answers swept_outcome records.now.input.now out.old out.new result }
{
    match rewritten::rewrite_graph(records, plan, buffer) {
        Ok(count) => answer_swept(records, known, plan, buffer, count, pops, out),
        Err(refusal) => Err(refusal),
    }
}

// The fold of an accepted input, whose properties the table indexes.
fn fold_graph(records: &Records, table: &[u16; SLOTS], out: &mut [u8]) -> Outcome
    requires { Indexed (graph_of records.now.input.now).properties records.now.input.now table.now }
    ensures { Answers swept_outcome records.now.input.now out.old out.new result }
{
    let own = [resolve::SET_NOTHING; limit::NODES];
    let mut known = Known::new();
    let mut plan = Plan::new();
    let pops = propagation::propagate_graph(records, table, &own, &mut known, &mut plan);
    let mut buffer = [0u8; WIRE_BYTES];
    rewrite_graph(records, &known, &plan, pops, &mut buffer, out)
}

fn fold_input(input: &[u8], out: &mut [u8]) -> Outcome
    ensures { Answers swept_outcome input.now out.old out.new result }
{
    let mut table = [0u16; SLOTS];
    let counts = records::decode(input, &mut table)?;
    let records = Records { input, counts };
    fold_graph(&records, &table, out)
}

// Folds the graph that the input says, and takes what feeds nothing. The answer is written into `out`; a refusal leaves it as it was.
pub fn fold_swept(input: &[u8], out: &mut [u8]) -> Outcome
    ensures result { IsCase (swept_outcome input.now (length out.old)) result }
    ensures numbers { numbers result ≡ numbers_of (swept_outcome input.now (length out.old)) }
    ensures buffer { out.new ≡ written (swept_outcome input.now (length out.old)) out.old }
    ensures untouched { 1 ≤ (numbers result).number → out.new ≡ out.old }
    ensures past { drop (numbers result).length out.new ≡ drop (numbers result).length out.old }
    ensures fits { (numbers result).length ≤ length out.old }
    ensures refusals { RefusalsBy swept_bytes input.now (length out.old) (numbers result) }
    ensures offset { (numbers result).number ≡ 9 → EndlessAt input.now (numbers result).place }
    ensures read { Accepted (numbers result) → decode input.now ≡ accepted (graph_of input.now) }
    ensures order_free { OrderFree (graph_of input.now) }
    ensures any_order { AnyOrderOf (graph_of input.now) }
    ensures answer { Accepted (numbers result) → AnswerBy swept_bytes (graph_of input.now) (take (numbers result).length out.new) }
    ensures any_run { Accepted (numbers result) → AnyRun (graph_of input.now) (take (numbers result).length out.new) }
    ensures pops { Accepted (numbers result) → PopsOf (graph_of input.now) (numbers result).pops }
    ensures finite { FinitePlan (graph_of input.now) }
    ensures clean { CleanLeft (graph_of input.now) }
    ensures branches { BranchesUnknown (graph_of input.now) }
    ensures longest { (numbers result).length ≤ max_answer }
    ensures enough { max_answer ≤ length out.old → (numbers result).number ≡ 10 → TooManyWires (graph_of input.now) }
    ensures waiting { (k : ℕ) → Waiting (graph_of input.now) (after (literals (graph_of input.now)) (graph_of input.now) k) }
{
    fold_input(input, out)
}

// `fold_swept` in numbers, as swept_c gives it to other languages: the refusal's number, or 0, and document 01's place, length and pops through the pointers.
pub fn mezburiko_fold_swept(
    input: &[u8],
    out: &mut [u8],
    place: &mut usize,
    length: &mut usize,
    pops: &mut usize,
) -> u8
    ensures result { record { number = result; place = place.new; length = length.new; pops = pops.new } ≡ numbers_of (swept_outcome input.now (ListN.length out.old)) }
    ensures buffer { out.new ≡ written (swept_outcome input.now (ListN.length out.old)) out.old }
    ensures untouched { 1 ≤ result → out.new ≡ out.old }
    ensures past { drop length.new out.new ≡ drop length.new out.old }
    ensures fits { length.new ≤ ListN.length out.old }
    ensures refusals { RefusalsBy swept_bytes input.now (ListN.length out.old) (record { number = result; place = place.new; length = length.new; pops = pops.new }) }
    ensures offset { result ≡ 9 → EndlessAt input.now place.new }
    ensures read { result ≡ 0 → decode input.now ≡ accepted (graph_of input.now) }
    ensures order_free { OrderFree (graph_of input.now) }
    ensures any_order { AnyOrderOf (graph_of input.now) }
    ensures answer { result ≡ 0 → AnswerBy swept_bytes (graph_of input.now) (take length.new out.new) }
    ensures any_run { result ≡ 0 → AnyRun (graph_of input.now) (take length.new out.new) }
    ensures pops { result ≡ 0 → PopsOf (graph_of input.now) pops.new }
    ensures finite { FinitePlan (graph_of input.now) }
    ensures clean { CleanLeft (graph_of input.now) }
    ensures branches { BranchesUnknown (graph_of input.now) }
    ensures longest { length.new ≤ max_answer }
    ensures enough { max_answer ≤ ListN.length out.old → result ≡ 10 → TooManyWires (graph_of input.now) }
    ensures waiting { (k : ℕ) → Waiting (graph_of input.now) (after (literals (graph_of input.now)) (graph_of input.now) k) }
{
    folding::in_numbers(fold_swept(input, out), place, length, pops)
}
