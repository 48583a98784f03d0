// Document 01's records: decoding of an input by questions 1 to 8 and 12, and access to the accepted graph.
#![tactic(auto)]

ghost use Rattle.std.specs.Prelude.{◌≡◌};
ghost use Rattle.graph.specs.Decode.{decode as decodeOf, graph_of};
ghost use Rattle.graph.specs.Refusals.{report_of, reported};
ghost use Rattle.graph.specs.Index.{Indexed};

pub mod access;
pub mod run;

use graph::{Counts, Record, Refusal, SLOTS, question, scan};
use ir::{kind, limit};

// Questions 1 to 8 and 12: the counts of the graph that the input says, or the first question that is answered with no. The table then holds the
// offset of the property of each node and port, at `slot`, and 0 where there is none.
pub fn decode(input: &[u8], table: &mut [u16; SLOTS]) -> Result<Counts, Refusal>
    ensures { (report_of result ≡ reported (decodeOf input.now)) × Indexed (graph_of input.now).properties input.now table.new }
{
    *table = [0u16; SLOTS];
    if limit::INPUT < input.len() {
        return Err(Refusal::TooLong);
    }
    let mut counts = Counts::default();
    let mut last: u8 = 0;
    let mut at: usize = 0;
    while at < input.len() {
        if let Some(refusal) = question::check(input, at, last, counts, table) {
            *table = [0u16; SLOTS];
            return Err(refusal);
        }
        last = input[at];
        let role = kind::role_of(last);
        let record = Record { role, input, at };
        scan::index(&record, table);
        counts = scan::count(&record, counts);
        let size = 1 + kind::body_of(last);
        let run = run::read_same(last, role, size, input, at + size, counts, table);
        counts = run.counts;
        at = run.at;
    }
    Ok(counts)
}
