// What document 01 lists, in one place: classes, record kinds, ports, variants, flag bits and limits. Each table here
// is the one in specs/; later layers take every such number from this crate.
#![tactic(auto)]

pub mod class;
pub mod flag;
pub mod kind;
pub mod limit;
pub mod port;
pub mod variant;

// The port of a node, and a wire from one to another.
#[derive(Clone, Copy)]
pub struct PortRef {
    pub node_id: usize,
    pub port: u8,
}

#[derive(Clone, Copy)]
pub struct Wire {
    pub source: PortRef,
    pub target: PortRef,
}

// How the nodes of a class fold. Unary, Binary and Ternary are the gates of one, two and three inputs.
#[derive(Clone, Copy, PartialEq, Eq)]
pub enum Folding {
    Never,
    Literal,
    Microchip,
    Select,
    Branch,
    Unary,
    Binary,
    Ternary,
}

// What a record of a kind says.
#[derive(Clone, Copy, PartialEq, Eq)]
pub enum Role {
    Unlisted,
    Node,
    Wire,
    Property,
    Row,
    Annihilator,
}
