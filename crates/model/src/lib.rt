// What folding a graph means (specs/) and that it keeps the three demands (proofs/). Here is the type that code and definitions share.
#![tactic(auto)]

use value::Value;

// What an input port has: no wire and no property, a value, or a value that is not known.
#[derive(Clone, Copy)]
pub enum Resolved {
    Unwired,
    Known(Value),
    Unresolved,
}
