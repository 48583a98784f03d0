// The variants of an operand, as the rows name them.
pub const UNWIRED: u8 = 0;

pub const INT: u8 = 1;

pub const FLOAT: u8 = 2;

pub const BOOL: u8 = 3;

pub const VECTOR: u8 = 4;

pub const ROTATOR: u8 = 5;

pub const QUAT: u8 = 6;

pub const COLOR: u8 = 7;

pub const TEXT: u8 = 8;

pub const COUNT: usize = 9;
