// Gates. One of fewer than three inputs has Unwired in place of the others.
ghost use Rattle.std.specs.Prelude.{◌≡◌, [], ◌∷◌, ◌≤◌, ◌<◌};
ghost use Rattle.ir.specs.Classes.{class_count};
ghost use Rattle.ir.specs.Ports.{value_port};
ghost use Rattle.table.specs.Table.{bool_of};
ghost use Rattle.semantics.specs.Eval.{eval_of};
ghost use Rattle.semantics.specs.Finite.{non_finite_float};
ghost use Rattle.model.specs.Inputs.{size};
ghost use Rattle.model.specs.Offer.{plannable, evaluated, annihilator, holds_bool, settled, gate_value, literal_offer};
ghost use Rattle.inputs.specs.Inputs.{input_if};
ghost use Rattle.inputs.specs.Reading.{graph_in, port_in};
ghost use Rattle.resolve.specs.Reads.{IsComplete};
ghost use Rattle.resolve.specs.Gives.{gate_inputs, Gives};

use graph::Row;
use inputs::Reads;
use ir::{class, port, variant};
use model::Resolved;
use state::{Known, Trial};
use table::AnnihilatorKind;
use value::{Operand, Value};

// A gate: its node and class, and whether it has a second and a third input.
#[derive(Clone, Copy)]
pub struct Gate {
    pub node: usize,
    pub class: u8,
    pub second: bool,
    pub third: bool,
}

fn is_non_finite(v: Value) -> bool
    ensures { result ≡ non_finite_float v }
{
    matches!(v, Value::Float(x) if !ieee::is_finite(x))
}

// What a gate has at a port.
fn input_if(has: bool, reads: &Reads, known: &Known, n: usize, port: u8) -> Resolved
    requires { IsComplete reads.now × (n < size (graph_in reads.now)) × (port ≤ value_port) }
    ensures { result ≡ input_if has (port_in reads.now known.now n port) }
{
    if has {
        inputs::resolve_data_input(reads, known, n, port)
    } else {
        Resolved::Unwired
    }
}

// The value that a gate gives of operands, if it is not a non-finite Float.
fn evaluate_operands(class: u8, a: Operand, b: Operand, c: Operand) -> Option<Value>
    ensures { result ≡ plannable (eval_of class a b c) }
{
    let Some(v) = semantics::eval_in(class, a, b, c) else {
        return None;
    };
    if is_non_finite(v) {
        return None;
    }
    Some(v)
}

// The value that a gate gives of its inputs, where they are covered.
fn evaluate(reads: &Reads, known: &Known, gate: Gate) -> Option<Value>
    requires { IsComplete reads.now × (gate.node < size (graph_in reads.now)) × (gate.class < class_count) }
    ensures { result ≡ evaluated (graph_in reads.now) gate.class (gate_inputs (port_in reads.now known.now gate.node) gate.second gate.third) }
{
    let n = gate.node;
    let class = gate.class;
    let Some(a) = inputs::locate(true, reads, known, n, port::INPUT_A) else {
        return None;
    };
    let Some(b) = inputs::locate(gate.second, reads, known, n, port::INPUT_B) else {
        return None;
    };
    let Some(c) = inputs::locate(gate.third, reads, known, n, port::THIRD_INPUT) else {
        return None;
    };
    let row = Row {
        class,
        first: a.variant,
        second: b.variant,
        third: c.variant,
    };
    if table::covers(reads.rows, row) {
        // Add to Modulo of whole numbers. An input with no value is the whole number 0, and so is its word.
        if matches!(class, class::MATH_ADD..=class::MATH_MODULO)
            & (a.variant <= variant::INT)
            & (b.variant <= variant::INT)
        {
            return semantics::whole_math(class, whole::from_bits(a.word), whole::from_bits(b.word));
        }
        let x = inputs::operand_at(a, &reads.properties, known, n, port::INPUT_A);
        let y = inputs::operand_at(b, &reads.properties, known, n, port::INPUT_B);
        let z = inputs::operand_at(c, &reads.properties, known, n, port::THIRD_INPUT);
        return evaluate_operands(class, x, y, z);
    }
    None
}

fn holds_bool(want: bool, input: Resolved) -> bool
    ensures { result ≡ holds_bool want input }
{
    let Resolved::Known(v) = input else {
        return false;
    };
    matches!(v, Value::Bool(b) if b == want)
}

// The Bool that one of the inputs is known as.
fn settle(want: bool, a: Resolved, b: Resolved, c: Resolved) -> Option<Value>
    ensures { result ≡ settled (Some want) (a ∷ b ∷ c ∷ []) }
{
    if holds_bool(want, a) | holds_bool(want, b) | holds_bool(want, c) {
        return Some(Value::Bool(want));
    }
    None
}

// The Bool of an annihilator, where an input is known as it.
fn annihilate(kind: AnnihilatorKind, a: Resolved, b: Resolved, c: Resolved) -> Option<Value>
    ensures { result ≡ settled (Some (bool_of kind)) (a ∷ b ∷ c ∷ []) }
{
    match kind {
        AnnihilatorKind::AndFalse => settle(false, a, b, c),
        AnnihilatorKind::OrTrue => settle(true, a, b, c),
    }
}

// The Bool that settles a gate which gives no value, as literal.
fn settle_gate(reads: &Reads, known: &Known, gate: Gate) -> Trial
    requires { IsComplete reads.now × (gate.node < size (graph_in reads.now)) }
    ensures { Gives (graph_in reads.now) gate.node (literal_offer (settled (annihilator (graph_in reads.now) gate.class) (gate_inputs (port_in reads.now known.now gate.node) gate.second gate.third))) result }
{
    let Some(kind) = table::annihilator(reads.counts, gate.class) else {
        return Trial::Nothing;
    };
    let n = gate.node;
    let a = inputs::resolve_data_input(reads, known, n, port::INPUT_A);
    let b = input_if(gate.second, reads, known, n, port::INPUT_B);
    let c = input_if(gate.third, reads, known, n, port::THIRD_INPUT);
    let Some(v) = annihilate(kind, a, b, c) else {
        return Trial::Nothing;
    };
    Trial::BecomeLiteral(v)
}

// A gate by its inputs: what it gives, or else the Bool that settles it, as literal.
pub fn try_resolve_gate(reads: &Reads, known: &Known, gate: Gate) -> Trial
    requires { IsComplete reads.now × (gate.node < size (graph_in reads.now)) × (gate.class < class_count) }
    ensures { Gives (graph_in reads.now) gate.node (literal_offer (gate_value (graph_in reads.now) gate.class (gate_inputs (port_in reads.now known.now gate.node) gate.second gate.third))) result }
{
    let Some(v) = evaluate(reads, known, gate) else {
        return settle_gate(reads, known, gate);
    };
    Trial::BecomeLiteral(v)
}
