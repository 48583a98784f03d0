// What an input may hold at most.
pub const INPUT: usize = 65536;

pub const NODES: usize = 1024;

pub const WIRES: usize = 4096;

pub const PROPERTIES: usize = 2048;

pub const ROWS: usize = 1024;
