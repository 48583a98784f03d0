// The ports.
pub const OUTPUT: u8 = 0;

pub const EXEC: u8 = 1;

pub const INPUT_A: u8 = 2;

pub const INPUT_B: u8 = 3;

pub const B_SELECT_B: u8 = 4;

pub const B_COND: u8 = 5;

pub const EXEC_OUT_A: u8 = 6;

pub const EXEC_OUT_B: u8 = 7;

pub const RER_INPUT: u8 = 8;

pub const THIRD_INPUT: u8 = 9;

pub const VALUE: u8 = 10;

// How many ports there are.
pub const COUNT: usize = 11;
