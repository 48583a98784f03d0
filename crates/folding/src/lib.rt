// The whole fold: a graph's records in, the answer's records out.
#![tactic(auto)]

ghost use Rattle.std.specs.Prelude.{◌≡◌, List, ℕ, ◌+◌, ◌*◌, ◌≤◌, ◌<◌, leb, length, get_or, take, drop};
ghost use Rattle.std.proofs.Math.ListN as ListN;
ghost use Rattle.ir.specs.Limits.{max_nodes, max_wires, max_answer};
ghost use Rattle.encoding.specs.Numbers.{byte};
ghost use Rattle.graph.specs.Decode.{accepted, decode, graph_of};
ghost use Rattle.graph.specs.Index.{Indexed};
ghost use Rattle.model.specs.Offer.{literals};
ghost use Rattle.model.specs.Worklist.{after, Waiting};
ghost use Rattle.model.specs.Outcome.{numbers_of, written, outcome};
ghost use Rattle.state.specs.Held.{is_kind};
ghost use Rattle.answer.specs.Nodes.{known_records, fate_records};
ghost use Rattle.folding.specs.Entry.{IsCase, numbers, Answers, Worked, Folds, Rewrote, Kept};
ghost use Rattle.folding.specs.Demands.{Refusals, EndlessAt, Accepted, OrderFree, AnswerOf, PopsOf, FinitePlan, CleanWires, BranchesUnknown, TooManyWires};

use emit::kept;
use encoding::wires as wire_records;
use graph::{Refusal, SLOTS};
use ir::limit;
use records::access::Records;
use rewrite::Rewrites;
use state::{Known, Plan};

// The answer's length, and the pops.
#[derive(Clone, Copy)]
pub struct Folded {
    pub length: usize,
    pub pops: usize,
}

// .. or a refusal.
pub type Outcome = Result<Folded, Refusal>;

// Whether a buffer of so much room holds the records of the nodes and `count` wires.
pub fn holds(
    known: &Known,
    actions: &[u8; limit::NODES],
    nodes: usize,
    count: usize,
    room: usize,
) -> bool
    requires { (nodes ≤ max_nodes) × (count ≤ max_wires) × ((m : ℕ) → is_kind (get_or known.now.kinds m 0)) }
    ensures { (words : List ℕ) → result ≡ leb (length (known_records known.now.kinds words nodes) + length (fate_records known.now.kinds words actions.now nodes) + 7 * count) room }
{
    let wires = wire_records::SIZE * count;
    wires <= room && answer::nodes_fit(known, actions, nodes, room - wires)
}

// Question 10, and the answer. `count` is how many wires there are at the end, 4,097 for more than 4,096.
fn write_answer(
    records: &Records,
    known: &Known,
    plan: &Plan,
    rewrites: &Rewrites,
    count: usize,
    pops: usize,
    out: &mut [u8],
) -> Outcome
    requires { Rewrote records.now.input.now records.now.counts known.now.kinds known.now.words plan.now.actions plan.now.details rewrites.now.sources rewrites.now.counts rewrites.now.chains.first rewrites.now.chains.next count pops }
    ensures { Folds records.now.input.now records.now.counts known.now.kinds known.now.words plan.now.actions plan.now.details pops out.old out.new result }
{
    let wires = records.wires();
    if limit::WIRES < count || !holds(known, &plan.actions, wires.nodes, count, out.len()) {
        return Err(Refusal::NoSpace);
    }
    let past = answer::write_nodes(known, &plan.actions, wires.nodes, out);
    let length = emit::write_wires(&wires, plan, rewrites, out, past);
    Ok(Folded { length, pops })
}

// Question 9, then 10 and the answer.
fn rewrite_graph(
    records: &Records,
    known: &Known,
    plan: &Plan,
    pops: usize,
    out: &mut [u8],
) -> Outcome
    requires { Worked records.now.input.now records.now.counts known.now.kinds known.now.words plan.now.actions plan.now.details pops }
    ensures { Folds records.now.input.now records.now.counts known.now.kinds known.now.words plan.now.actions plan.now.details pops out.old out.new result }
{
    let wires = records.wires();
    let mut rewrites = Rewrites::new();
    match rewrite::rewrite(&wires, plan, &mut rewrites) {
        Ok(count) => write_answer(records, known, plan, &rewrites, count, pops, out),
        Err(endless) => {
            let place = records.wires_offset() + wire_records::SIZE * endless.index;
            Err(Refusal::Endless(place))
        }
    }
}

// What the type says of each byte, for proofs where a struct holds the slice.
pub fn bytes_fit(s: &[u8])
    ensures { (k : ℕ) → byte s.now k < 256 }
{}

// The answer where neither a Select nor a Branch is planned, into a buffer that holds every wire of the input.
fn write_kept(records: &Records, known: &Known, plan: &Plan, pops: usize, out: &mut [u8]) -> Outcome
    requires { Kept records.now.input.now records.now.counts known.now.kinds known.now.words plan.now.actions plan.now.details pops (length out.old) }
    ensures { Folds records.now.input.now records.now.counts known.now.kinds known.now.words plan.now.actions plan.now.details pops out.old out.new result }
{
    bytes_fit(records.input);
    let wires = records.wires();
    let past = answer::write_nodes(known, &plan.actions, records.counts.nodes, out);
    let length = kept::write_wires(&wires, &plan.actions, out, past);
    Ok(Folded { length, pops })
}

// Questions 9 and 10, and the answer. Without a planned Select or Branch every wire's rewriting ends, and the wires only get fewer: they are counted
// only where the buffer may be too short. What is known and planned is what a worklist of the input's graph left, whatever its nodes were by themselves.
pub fn answer_graph(
    records: &Records,
    known: &Known,
    plan: &Plan,
    pops: usize,
    out: &mut [u8],
) -> Outcome
    requires { Worked records.now.input.now records.now.counts known.now.kinds known.now.words plan.now.actions plan.now.details pops }
    ensures { Folds records.now.input.now records.now.counts known.now.kinds known.now.words plan.now.actions plan.now.details pops out.old out.new result }
{
    let counts = records.counts;
    if !state::any_above(&plan.actions, counts.nodes, state::BECOME_LITERAL)
        && holds(known, &plan.actions, counts.nodes, counts.wires, out.len())
    {
        return write_kept(records, known, plan, pops, out);
    }
    rewrite_graph(records, known, plan, pops, out)
}

// The fold of an accepted input, whose properties the table indexes. Nothing is set.
fn fold_graph(records: &Records, table: &[u16; SLOTS], out: &mut [u8]) -> Outcome
    requires { Indexed (graph_of records.now.input.now).properties records.now.input.now table.now }
    ensures { Answers outcome records.now.input.now out.old out.new result }
{
    let own = [resolve::SET_NOTHING; limit::NODES];
    let mut known = Known::new();
    let mut plan = Plan::new();
    let pops = propagation::propagate_graph(records, table, &own, &mut known, &mut plan);
    answer_graph(records, &known, &plan, pops, out)
}

// Folds the graph that the input says. The answer is written into `out`; a refusal leaves it as it was.
pub fn fold(input: &[u8], out: &mut [u8]) -> Outcome
    ensures result { IsCase (outcome input.now (length out.old)) result }
    ensures numbers { numbers result ≡ numbers_of (outcome input.now (length out.old)) }
    ensures buffer { out.new ≡ written (outcome input.now (length out.old)) out.old }
    ensures untouched { 1 ≤ (numbers result).number → out.new ≡ out.old }
    ensures past { drop (numbers result).length out.new ≡ drop (numbers result).length out.old }
    ensures fits { (numbers result).length ≤ length out.old }
    ensures refusals { Refusals input.now (length out.old) (numbers result) }
    ensures offset { (numbers result).number ≡ 9 → EndlessAt input.now (numbers result).place }
    ensures read { Accepted (numbers result) → decode input.now ≡ accepted (graph_of input.now) }
    ensures order_free { OrderFree (graph_of input.now) }
    ensures answer { Accepted (numbers result) → AnswerOf (graph_of input.now) (take (numbers result).length out.new) }
    ensures pops { Accepted (numbers result) → PopsOf (graph_of input.now) (numbers result).pops }
    ensures finite { FinitePlan (graph_of input.now) }
    ensures clean { CleanWires (graph_of input.now) }
    ensures branches { BranchesUnknown (graph_of input.now) }
    ensures longest { (numbers result).length ≤ max_answer }
    ensures enough { max_answer ≤ length out.old → (numbers result).number ≡ 10 → TooManyWires (graph_of input.now) }
    ensures waiting { (k : ℕ) → Waiting (graph_of input.now) (after (literals (graph_of input.now)) (graph_of input.now) k) }
{
    fold_input(input, out)
}

fn fold_input(input: &[u8], out: &mut [u8]) -> Outcome
    ensures { Answers outcome input.now out.old out.new result }
{
    let mut table = [0u16; SLOTS];
    let counts = records::decode(input, &mut table)?;
    let records = Records { input, counts };
    fold_graph(&records, &table, out)
}

// An outcome in numbers: the refusal's number, or 0, and document 01's place, length and pops through the pointers.
pub fn in_numbers(outcome: Outcome, place: &mut usize, length: &mut usize, pops: &mut usize) -> u8
    ensures { record { number = result; place = place.new; length = length.new; pops = pops.new } ≡ numbers outcome }
{
    match outcome {
        Ok(folded) => {
            *place = 0;
            *length = folded.length;
            *pops = folded.pops;
            0
        }
        Err(refusal) => {
            *place = refusal.place();
            *length = 0;
            *pops = 0;
            refusal.number()
        }
    }
}

// `fold` in numbers, as folding_c gives it to other languages.
pub fn mezburiko_fold(
    input: &[u8],
    out: &mut [u8],
    place: &mut usize,
    length: &mut usize,
    pops: &mut usize,
) -> u8
    ensures result { record { number = result; place = place.new; length = length.new; pops = pops.new } ≡ numbers_of (outcome input.now (ListN.length out.old)) }
    ensures buffer { out.new ≡ written (outcome input.now (ListN.length out.old)) out.old }
    ensures untouched { 1 ≤ result → out.new ≡ out.old }
    ensures past { drop length.new out.new ≡ drop length.new out.old }
    ensures fits { length.new ≤ ListN.length out.old }
    ensures refusals { Refusals input.now (ListN.length out.old) (record { number = result; place = place.new; length = length.new; pops = pops.new }) }
    ensures offset { result ≡ 9 → EndlessAt input.now place.new }
    ensures read { result ≡ 0 → decode input.now ≡ accepted (graph_of input.now) }
    ensures order_free { OrderFree (graph_of input.now) }
    ensures answer { result ≡ 0 → AnswerOf (graph_of input.now) (take length.new out.new) }
    ensures pops { result ≡ 0 → PopsOf (graph_of input.now) pops.new }
    ensures finite { FinitePlan (graph_of input.now) }
    ensures clean { CleanWires (graph_of input.now) }
    ensures branches { BranchesUnknown (graph_of input.now) }
    ensures longest { length.new ≤ max_answer }
    ensures enough { max_answer ≤ ListN.length out.old → result ≡ 10 → TooManyWires (graph_of input.now) }
    ensures waiting { (k : ℕ) → Waiting (graph_of input.now) (after (literals (graph_of input.now)) (graph_of input.now) k) }
{
    in_numbers(fold(input, out), place, length, pops)
}
