// What document 01's records say: the types of the graph's lists, questions 2 to 8 and 12 of one record, and what it adds.
#![tactic(auto)]

ghost use Rattle.std.specs.Prelude.{◌+◌, ◌≤◌, length};
ghost use Rattle.graph.specs.Layout.{size_by};

pub mod question;
pub mod refusals;
pub mod scan;

use ir::Role;
use value::Value;

#[derive(Clone, Copy)]
pub struct Node {
    pub class: u8,
    pub flags: u8,
}

#[derive(Clone, Copy)]
pub struct Property {
    pub node_id: usize,
    pub port: u8,
    pub value: Value,
}

#[derive(Clone, Copy)]
pub struct Row {
    pub class: u8,
    pub first: u8,
    pub second: u8,
    pub third: u8,
}

// The record at an offset of an input, with the bytes that its role asks of.
#[derive(Clone, Copy)]
pub struct Record<'a> {
    pub role: Role,
    pub input: &'a [u8],
    pub at: usize,
    pub ghost whole: { at + size_by role ≤ length input.now },
}

// How many records of each role an input has, how many of its properties are texts, and which annihilators.
#[derive(Clone, Copy, Default)]
pub struct Counts {
    pub nodes: usize,
    pub wires: usize,
    pub properties: usize,
    pub texts: usize,
    pub rows: usize,
    pub annihilators: usize,
    pub and_false: bool,
    pub or_true: bool,
}

// The first question that is answered with no. It holds the offset of the record at fault, where one is: of `Endless` that of the first wire
// whose rewriting does not end.
#[derive(Clone, Copy)]
pub enum Refusal {
    TooLong,
    UnknownKind(usize),
    CutOff(usize),
    Unlisted(usize),
    OrdersText(usize),
    OutOfOrder(usize),
    MissingNode(usize),
    Repeated(usize),
    TooMany(usize),
    Endless(usize),
    NoSpace,
}

// The length of the table from (node, port) to the offset of the property: 1,024 nodes with 11 ports each.
pub const SLOTS: usize = 11264;
