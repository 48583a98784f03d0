// The trial of one node: what its inputs have by what is known, and the value or the plan that this gives it.
#![tactic(auto)]

mod gates;

ghost use Rattle.std.specs.Prelude.{◌≡◌, cond, ℕ, ◌≤◌, ◌<◌, get_or};
ghost use Rattle.ir.specs.Classes.{class_count};
ghost use Rattle.ir.specs.Limits.{max_nodes};
ghost use Rattle.ir.specs.Ports.{input_a, input_b, b_select_b, b_cond, exec_out_a, exec_out_b, value_port};
ghost use Rattle.graph.specs.Graph.{Graph};
ghost use Rattle.model.specs.Inputs.{size, value_in};
ghost use Rattle.model.specs.Offer.{offer, value_offer, select_offer, branch_offer, resolve_condition};
ghost use Rattle.model.specs.Own.{set_nothing, setting_of, own_of};
ghost use Rattle.state.specs.Held.{known_of};
ghost use Rattle.state.specs.Trials.{offer_of, Within};
ghost use Rattle.inputs.specs.Reading.{graph_in, wired_in, port_in};
ghost use Rattle.resolve.specs.Reads.{IsComplete};
ghost use Rattle.resolve.specs.Gives.{microchip_offer, Gives};

use gates::Gate;
use inputs::{Feeds, Reads};
use ir::{Folding, class, flag, limit, port};
use model::Resolved;
use records::access;
use state::{Known, Trial};
use value::Value;

// What a caller sets an input to, which is then what it is by itself; any other number sets nothing too.
pub const SET_NOTHING: u8 = 0;

pub const SET_FALSE: u8 = 1;

pub const SET_TRUE: u8 = 2;

// A Literal, known as its Value where it has one.
fn try_resolve_literal(value: Option<Value>) -> Trial
    ensures { (g : Graph) (n : ℕ) → Gives g n (value_offer value) result }
{
    let Some(v) = value else {
        return Trial::Nothing;
    };
    Trial::Known(v)
}

// The value that a Microchip node passes on: that of its one wire's source.
fn passed(input: Resolved) -> Trial
    ensures { (g : Graph) (n : ℕ) → Gives g n (value_offer (value_in input)) result }
{
    let Resolved::Known(v) = input else {
        return Trial::Nothing;
    };
    Trial::Known(v)
}

// What an input is set to.
fn set_to(setting: u8) -> Trial
    ensures { (g : Graph) (n : ℕ) → Gives g n (value_offer (setting_of setting)) result }
{
    match setting {
        SET_FALSE => Trial::Known(Value::Bool(false)),
        SET_TRUE => Trial::Known(Value::Bool(true)),
        _ => Trial::Nothing,
    }
}

// A Microchip node, by what its wires pass on. A MicrochipInput with no wire is what it is set to.
fn try_resolve_microchip(input: Resolved, class: u8, own: &[u8; limit::NODES], n: usize) -> Trial
    requires { n < max_nodes }
    ensures { (g : Graph) → Gives g n (microchip_offer class (get_or own.now n set_nothing) input) result }
{
    let Resolved::Unwired = input else {
        return passed(input);
    };
    if class == class::MICROCHIP_INPUT {
        return set_to(own[n]);
    }
    Trial::Nothing
}

fn chosen_port(truthy: bool) -> u8
    ensures { (result ≡ cond truthy input_b input_a) × (result ≤ value_port) }
{
    if truthy { port::INPUT_B } else { port::INPUT_A }
}

fn taken_port(truthy: bool) -> u8
    ensures { result ≡ cond truthy exec_out_a exec_out_b }
{
    if truthy {
        port::EXEC_OUT_A
    } else {
        port::EXEC_OUT_B
    }
}

// A Select, once its condition is resolved: shorted to the source of the one wire at the chosen port, and known once that is.
fn try_resolve_select(reads: &Reads, known: &Known, n: usize, class: u8) -> Trial
    requires { IsComplete reads.now × (class < class_count) × (n < size (graph_in reads.now)) }
    ensures { Gives (graph_in reads.now) n (select_offer (graph_in reads.now) n (wired_in reads.now known.now n) (resolve_condition (graph_in reads.now) class (port_in reads.now known.now n b_select_b))) result }
{
    let Some(truthy) = inputs::resolve_condition(reads, known, n, port::B_SELECT_B, class) else {
        return Trial::Nothing;
    };
    let Feeds::One(chosen) = inputs::feeds_of(reads.feeds, n, chosen_port(truthy)) else {
        return Trial::Nothing;
    };
    let Some(value) = inputs::source_value(&reads.wires, known, chosen) else {
        return Trial::ShortCircuit { chosen };
    };
    Trial::ShortCircuitKnown { chosen, value }
}

// A Branch, once its condition is resolved: cut down to the targets of the taken port.
fn try_resolve_branch(reads: &Reads, known: &Known, n: usize, class: u8) -> Trial
    requires { IsComplete reads.now × (class < class_count) × (n < size (graph_in reads.now)) }
    ensures { Gives (graph_in reads.now) n (branch_offer (graph_in reads.now) n (resolve_condition (graph_in reads.now) class (port_in reads.now known.now n b_cond))) result }
{
    let Some(truthy) = inputs::resolve_condition(reads, known, n, port::B_COND, class) else {
        return Trial::Nothing;
    };
    let taken = taken_port(truthy);
    Trial::Truncate { taken }
}

// What the trial of node n gives, by what is known and what inputs are set to.
pub fn try_resolve(reads: &Reads, own: &[u8; limit::NODES], known: &Known, n: usize) -> Trial
    requires { IsComplete reads.now × (n < size (graph_in reads.now)) }
    ensures { (offer_of (graph_in reads.now) n result ≡ offer (own_of (graph_in reads.now) own.now) (graph_in reads.now) (known_of known.now.kinds known.now.words) n) × Within (graph_in reads.now) result }
{
    let node = access::node(reads.properties.input, n);
    if flag::is_nofold(node.flags) {
        return Trial::Nothing;
    }
    let class = node.class;
    let folding = class::folding_of(class);
    let count = class::input_count(folding);
    match folding {
        Folding::Never => Trial::Nothing,
        Folding::Literal => try_resolve_literal(reads.properties.get(n, port::VALUE)),
        Folding::Microchip => try_resolve_microchip(
            inputs::resolve_input(&reads.wires, reads.feeds, known, n, port::RER_INPUT),
            class,
            own,
            n,
        ),
        Folding::Select => try_resolve_select(reads, known, n, class),
        Folding::Branch => try_resolve_branch(reads, known, n, class),
        _ => gates::try_resolve_gate(
            reads,
            known,
            Gate {
                node: n,
                class,
                second: 1 < count,
                third: 2 < count,
            },
        ),
    }
}
