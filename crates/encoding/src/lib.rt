// Numbers, wires and values as bytes: read at an offset of a slice, and written there. Values as words.
#![tactic(auto)]

pub mod numbers;
pub mod values;
pub mod wires;
pub mod words;
