// The graph of an accepted input, read where its records stand.
ghost use Rattle.std.specs.Prelude.{◌≡◌, ◌+◌, ◌*◌, ◌≤◌, ◌<◌, length, get_or};
ghost use Rattle.graph.specs.Graph.{lookup};
ghost use Rattle.graph.specs.Decode.{graph_of};
ghost use Rattle.graph.specs.Index.{Indexed, slot};
ghost use Rattle.records.specs.Access.{no_node, no_wire, no_row, wires_of, rows_of, Bounded, Accepts, wires_offset, properties_offset, rows_offset, annihilators_offset, texts_offset, wire_records, row_records};

use encoding::{values, wires};
use graph::{Counts, Node, Row, SLOTS};
use ir::{Wire, port};
use value::Value;

// How long the records of a node, a row, an annihilator and a text are.
const NODE_SIZE: usize = 3;

pub const ROW_SIZE: usize = 5;

const ANNIHILATOR_SIZE: usize = 2;

const TEXT_SIZE: usize = 21;

pub fn node(input: &[u8], i: usize) -> Node
    requires { i < length (graph_of input.now).nodes }
    ensures { result ≡ get_or (graph_of input.now).nodes i no_node }
{
    let at = NODE_SIZE * i;
    Node {
        class: input[at + 1],
        flags: input[at + 2],
    }
}

// An accepted input, and the counts of its records.
#[derive(Clone, Copy)]
pub struct Records<'a> {
    pub input: &'a [u8],
    pub counts: Counts,
    pub ghost accepts: { Accepts input.now counts },
}

impl<'a> Records<'a> {
    // Where the records of each role start. Texts are properties of their own kind, after the annihilators.
    pub fn wires_offset(&self) -> usize
        ensures { result ≡ wires_offset self.now.counts }
    {
        NODE_SIZE * self.counts.nodes
    }

    pub fn properties_offset(&self) -> usize
        ensures { result ≡ properties_offset self.now.counts }
    {
        self.wires_offset() + wires::SIZE * self.counts.wires
    }

    pub fn texts_offset(&self) -> usize
        ensures { result ≡ texts_offset (length self.now.input.now) self.now.counts }
    {
        self.input.len() - TEXT_SIZE * self.counts.texts
    }

    pub fn annihilators_offset(&self) -> usize
        ensures { result ≡ annihilators_offset (length self.now.input.now) self.now.counts }
    {
        self.texts_offset() - ANNIHILATOR_SIZE * self.counts.annihilators
    }

    pub fn rows_offset(&self) -> usize
        ensures { result ≡ rows_offset (length self.now.input.now) self.now.counts }
    {
        self.annihilators_offset() - ROW_SIZE * self.counts.rows
    }

    // The wire records, as that part of the input.
    pub fn wire_records(&self) -> &'a [u8]
        ensures part { result.now ≡ wire_records self.now.input.now self.now.counts }
        ensures wires { wires_of result.now ≡ (graph_of self.now.input.now).wires }
    {
        &self.input[self.wires_offset()..self.properties_offset()]
    }

    pub fn wires(&self) -> Wires<'a>
        ensures records { result.records.now ≡ wire_records self.now.input.now self.now.counts }
        ensures nodes { result.nodes ≡ self.now.counts.nodes }
        ensures wires { wires_of result.records.now ≡ (graph_of self.now.input.now).wires }
    {
        Wires {
            records: self.wire_records(),
            nodes: self.counts.nodes,
        }
    }

    // The row records, as that part of the input.
    pub fn rows(&self) -> &'a [u8]
        ensures part { result.now ≡ row_records self.now.input.now self.now.counts }
        ensures rows { rows_of result.now ≡ (graph_of self.now.input.now).rows }
    {
        &self.input[self.rows_offset()..self.annihilators_offset()]
    }
}

// The wire records of a graph of so many nodes.
#[derive(Clone, Copy)]
pub struct Wires<'a> {
    pub records: &'a [u8],
    pub nodes: usize,
    pub ghost bounded: { Bounded (wires_of records.now) nodes },
}

impl Wires<'_> {
    pub fn len(&self) -> usize
        ensures { result ≡ length (wires_of self.now.records.now) }
    {
        self.records.len() / wires::SIZE
    }

    pub fn get(&self, i: usize) -> Wire
        requires { i < length (wires_of self.now.records.now) }
        ensures { result ≡ get_or (wires_of self.now.records.now) i no_wire }
    {
        wire(self.records, i)
    }
}

// The wire of the j-th of a run of wire records.
pub fn wire(records: &[u8], j: usize) -> Wire
    requires { j < length (wires_of records.now) }
    ensures { result ≡ get_or (wires_of records.now) j no_wire }
{
    wires::read_wire(records, wires::SIZE * j)
}

// The row of the k-th of a run of row records.
pub fn row(rows: &[u8], k: usize) -> Row
    requires { k < length (rows_of rows.now) }
    ensures { result ≡ get_or (rows_of rows.now) k no_row }
{
    let at = ROW_SIZE * k;
    Row {
        class: rows[at + 1],
        first: rows[at + 2],
        second: rows[at + 3],
        third: rows[at + 4],
    }
}

// Where the properties of an input stand, by the table that `decode` fills.
#[derive(Clone, Copy)]
pub struct Properties<'a> {
    pub input: &'a [u8],
    pub table: &'a [u16; SLOTS],
    pub ghost indexed: { Indexed (graph_of input.now).properties input.now table.now },
}

impl Properties<'_> {
    // The offset of the property of a node and a port, 0 where there is none.
    pub fn offset(&self, node: usize, port: u8) -> usize
        requires { (node < 1024) × (port ≤ 10) }
        ensures { result ≡ get_or self.now.table.now (slot node port) 0 }
    {
        usize::from(self.table[node * port::COUNT + usize::from(port)])
    }

    pub fn get(&self, node: usize, port: u8) -> Option<Value>
        requires { (node < 1024) × (port ≤ 10) }
        ensures { result ≡ lookup node port (graph_of self.now.input.now).properties }
    {
        let at = self.offset(node, port);
        if at == 0 {
            return None;
        }
        Some(values::read_value(self.input[at], self.input, at + 4))
    }
}
