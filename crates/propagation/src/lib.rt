// From an input's bytes to known values and plan: decoding, the indexes of its rows and wires, and the worklist. `own` has what the free inputs are
// set to: nothing, false or true (`resolve::SET_NOTHING`, `SET_FALSE`, `SET_TRUE`).
#![tactic(auto)]

ghost use Rattle.std.specs.Prelude.{◌≡◌};
ghost use Rattle.graph.specs.Decode.{graph_of};
ghost use Rattle.graph.specs.Index.{Indexed};
ghost use Rattle.model.specs.Own.{own_of};
ghost use Rattle.model.specs.Trial.{empty};
ghost use Rattle.state.specs.Planned.{Holds};
ghost use Rattle.wire_index.specs.Chains.{Feeds, Consumers};
ghost use Rattle.propagation.specs.Propagation.{Settled, Propagates};

use graph::{Counts, Refusal, SLOTS};
use inputs::Reads;
use ir::limit;
use records::access::{Properties, Records, Wires};
use state::{Known, Plan};
use table::Rows;
use wire_index::Chains;

// What comes of an accepted graph: the counts of its records, and the pops of its worklist.
#[derive(Clone, Copy)]
pub struct Propagated {
    pub counts: Counts,
    pub pops: usize,
}

// What a trial reads.
fn make_reads<'a>(
    counts: Counts,
    properties: Properties<'a>,
    wires: Wires<'a>,
    feeds: &'a Chains<SLOTS>,
    rows: &'a Rows,
) -> Reads<'a>
    ensures { result ≡ record { counts = counts; properties = properties.entry; wires = wires.entry; feeds = feeds.entry; rows = rows.entry } }
{
    Reads {
        counts,
        properties,
        wires,
        feeds,
        rows,
    }
}

// The worklist over the indexes of the wires. The table of rows is laid out here, in the place on the stack that those indexes took to be made.
fn run_worklist(
    records: &Records,
    table: &[u16; SLOTS],
    feeds: &Chains<SLOTS>,
    consumers: &Chains<{ limit::NODES }>,
    own: &[u8; limit::NODES],
    known: &mut Known,
    plan: &mut Plan,
) -> usize
    requires indexed { Indexed (graph_of records.now.input.now).properties records.now.input.now table.now }
    requires linked { Feeds (graph_of records.now.input.now).wires feeds.now.first feeds.now.next × Consumers (graph_of records.now.input.now).wires consumers.now.first consumers.now.next }
    requires fresh { Holds (graph_of records.now.input.now) known.old.kinds known.old.words plan.old.actions plan.old.details empty }
    ensures { Settled records.now.input.now (own_of (graph_of records.now.input.now) own.now) records.now.counts known.new.kinds known.new.words plan.new.actions plan.new.details result }
{
    let wires = records.wires();
    let mut rows = table::NO_ROWS;
    table::index_rows(records.rows(), &mut rows);
    let properties = Properties {
        input: records.input,
        table,
    };
    let reads = make_reads(records.counts, properties, wires, feeds, &rows);
    worklist::run(&reads, consumers, own, known, plan)
}

// The worklist of an accepted input, whose properties the table indexes. Nothing is known and nothing planned at first. The pops.
pub fn propagate_graph<'a>(
    records: &Records<'a>,
    table: &'a [u16; SLOTS],
    own: &[u8; limit::NODES],
    known: &mut Known,
    plan: &mut Plan,
) -> usize
    requires { Indexed (graph_of records.now.input.now).properties records.now.input.now table.now × Holds (graph_of records.now.input.now) known.old.kinds known.old.words plan.old.actions plan.old.details empty }
    ensures { Settled records.now.input.now (own_of (graph_of records.now.input.now) own.now) records.now.counts known.new.kinds known.new.words plan.new.actions plan.new.details result }
{
    let wires = records.wires();
    let mut feeds = Chains::<SLOTS>::new();
    let mut consumers = Chains::<{ limit::NODES }>::new();
    wire_index::link_feeds(&wires, &mut feeds);
    wire_index::link_consumers(&wires, &mut consumers);
    run_worklist(records, table, &feeds, &consumers, own, known, plan)
}

// Questions 1 to 8 and 12 of an input, and the worklist of an accepted one. Whatever was known and planned is cleared; a refusal leaves
// it as it was.
pub fn propagate(
    input: &[u8],
    own: &[u8; limit::NODES],
    known: &mut Known,
    plan: &mut Plan,
) -> Result<Propagated, Refusal>
    ensures { Propagates input.now own.now known.old.kinds known.old.words plan.old.actions plan.old.details known.new.kinds known.new.words plan.new.actions plan.new.details result }
{
    let mut table = [0u16; SLOTS];
    let counts = records::decode(input, &mut table)?;
    state::clear(known, plan);
    let records = Records { input, counts };
    let pops = propagate_graph(&records, &table, own, known, plan);
    Ok(Propagated { counts, pops })
}
