// What the input ports of a node have, by what is known: lower/fold/mod.rs from `resolve_input` to `resolve_condition`.
#![tactic(auto)]

ghost use Rattle.std.specs.Prelude.{◌≡◌, ◌+◌, ◌<◌, ◌≤◌, length, get_or, Option, IfSome};
ghost use Rattle.ir.specs.Classes.{class_count};
ghost use Rattle.ir.specs.Limits.{max_nodes, max_wires};
ghost use Rattle.ir.specs.Ports.{value_port};
ghost use Rattle.ir.specs.Kinds.{role_of};
ghost use Rattle.ir.specs.declared.Role.{Role};
ghost use Rattle.encoding.specs.Values.{value_size};
ghost use Rattle.graph.specs.Decode.{graph_of};
ghost use Rattle.graph.specs.Index.{slot};
ghost use Rattle.records.specs.Access.{wires_of, no_wire};
ghost use Rattle.table.specs.Table.{Cells};
ghost use Rattle.model.specs.Maps.{Map};
ghost use Rattle.model.specs.Inputs.{size, property, carried as carried_of, or_property, resolve_wires, operand_of};
ghost use Rattle.model.specs.Offer.{resolve_condition};
ghost use Rattle.state.specs.Held.{known_of};
ghost use Rattle.inputs.specs.Inputs.{feeds_in, feeds_of, Wired, input_if, kind_variant, word_at, scalar_operand, Locates, LooksUp};
ghost use Rattle.inputs.specs.Reading.{graph_in, port_in, IsIndexed};

use encoding::numbers;
use graph::{Counts, Row, SLOTS};
use ir::{kind, port, variant};
use model::Resolved;
use records::access::{Properties, Wires};
use state::Known;
use table::Rows;
use value::{Operand, Value};
use wire_index::Chains;

// What a trial reads of an accepted input: the counts of its records, its properties and wires, the chains of the wires into each port, and the table
// of its rows.
#[derive(Clone, Copy)]
pub struct Reads<'a> {
    pub counts: Counts,
    pub properties: Properties<'a>,
    pub wires: Wires<'a>,
    pub feeds: &'a Chains<SLOTS>,
    pub rows: &'a Rows,
}

// The wires into a port: none, one with its number, or more.
#[derive(Clone, Copy)]
pub enum Feeds {
    None,
    One(u16),
    Many,
}

// The wires into a port, by the chain of its slot.
pub fn feeds_of(feeds: &Chains<SLOTS>, node: usize, port: u8) -> Feeds
    requires { (node < max_nodes) × (port ≤ value_port) × (get_or feeds.now.first (slot node port) 0 ≤ max_wires) }
    ensures { result ≡ feeds_of feeds.now.first feeds.now.next (slot node port) }
{
    let code = feeds.first[node * port::COUNT + usize::from(port)];
    if code == 0 {
        return Feeds::None;
    }
    let wire = code - 1;
    if feeds.next[usize::from(wire)] != 0 {
        return Feeds::Many;
    }
    Feeds::One(wire)
}

// What is known of a wire's source.
pub fn source_value(wires: &Wires, known: &Known, wire: u16) -> Option<Value>
    requires { wire < length (wires_of wires.now.records.now) }
    ensures { result ≡ known_of known.now.kinds known.now.words (get_or (wires_of wires.now.records.now) wire no_wire).source.node_id }
{
    let read = wires.get(usize::from(wire));
    known.load(read.source.node_id)
}

// A port by its wires: the value of the only one's source, where it is known. Two or more never resolve.
pub fn resolve_input(
    wires: &Wires,
    feeds: &Chains<SLOTS>,
    known: &Known,
    node: usize,
    port: u8,
) -> Resolved
    requires { Wired wires.now.records.now feeds.now.first feeds.now.next × (node < max_nodes) × (port ≤ value_port) }
    ensures { result ≡ resolve_wires (known_of known.now.kinds known.now.words) (feeds_in (wires_of wires.now.records.now) node port) }
{
    match feeds_of(feeds, node, port) {
        Feeds::None => Resolved::Unwired,
        Feeds::One(wire) => {
            let Some(v) = source_value(wires, known, wire) else {
                return Resolved::Unresolved;
            };
            Resolved::Known(v)
        }
        Feeds::Many => Resolved::Unresolved,
    }
}

// Like `resolve_input`, but a port with no wire takes the node's property.
pub fn resolve_data_input(reads: &Reads, known: &Known, node: usize, port: u8) -> Resolved
    requires { IsIndexed reads.now × (node < size (graph_in reads.now)) × (port ≤ value_port) }
    ensures { result ≡ port_in reads.now known.now node port }
{
    let input = resolve_input(&reads.wires, reads.feeds, known, node, port);
    let Resolved::Unwired = input else {
        return input;
    };
    let Some(v) = reads.properties.get(node, port) else {
        return Resolved::Unwired;
    };
    Resolved::Known(v)
}

// The variant of the values of a kind.
fn variant_of(kind: u8) -> u8
    ensures { result ≡ kind_variant kind }
{
    match kind {
        kind::INT..=kind::COLOR => kind - 2,
        _ => variant::TEXT,
    }
}

// The word that holds a scalar property, whose bytes stand at an offset. Of another value it is not used.
fn read_word(kind: u8, s: &[u8], at: usize) -> u64
    requires { (role_of kind ≡ Role.Property) × (at + value_size kind ≤ length s.now) }
    ensures { result ≡ word_at kind s.now at }
{
    if kind == kind::BOOL {
        return u64::from(s[at]);
    }
    numbers::read_u64(s, at)
}

// What a port has: its variant, of a scalar the word that holds it, and of one with a single wire the node that the wire starts at.
#[derive(Clone, Copy)]
pub struct Located {
    pub variant: u8,
    pub word: u64,
    pub source: Option<usize>,
}

// A port with no value.
const NOWHERE: Located = Located {
    variant: variant::UNWIRED,
    word: 0,
    source: None,
};

// A port with no wire.
fn locate_property(properties: &Properties, node: usize, port: u8) -> Located
    requires { (node < max_nodes) × (port ≤ value_port) }
    ensures { (known : Map Value) → Locates (or_property Resolved.Unwired (property (graph_of properties.now.input.now) node port)) (property (graph_of properties.now.input.now) node port) known result }
{
    let at = properties.offset(node, port);
    if at == 0 {
        return NOWHERE;
    }
    let kind = properties.input[at];
    Located {
        variant: variant_of(kind),
        word: read_word(kind, properties.input, at + 4),
        source: None,
    }
}

// A port with one wire.
fn locate_source(wires: &Wires, known: &Known, wire: u16) -> Option<Located>
    requires { wire < length (wires_of wires.now.records.now) }
    ensures { (o : Option Value) → LooksUp (carried_of (known_of known.now.kinds known.now.words (get_or (wires_of wires.now.records.now) wire no_wire).source.node_id)) o (known_of known.now.kinds known.now.words) result }
{
    let read = wires.get(usize::from(wire));
    let source = read.source.node_id;
    let kind = known.kinds[source];
    if kind == state::UNKNOWN {
        return None;
    }
    Some(Located {
        variant: variant_of(kind),
        word: known.first_word(source),
        source: Some(source),
    })
}

// What `resolve_data_input` gives of a port, located where it is resolved; Unwired where a gate has no such input.
pub fn locate(has: bool, reads: &Reads, known: &Known, node: usize, port: u8) -> Option<Located>
    requires { IsIndexed reads.now × (node < size (graph_in reads.now)) × (port ≤ value_port) }
    ensures { LooksUp (input_if has (port_in reads.now known.now node port)) (property (graph_in reads.now) node port) (known_of known.now.kinds known.now.words) result }
{
    if has {
        match feeds_of(reads.feeds, node, port) {
            Feeds::None => Some(locate_property(&reads.properties, node, port)),
            Feeds::One(wire) => locate_source(&reads.wires, known, wire),
            Feeds::Many => None,
        }
    } else {
        Some(NOWHERE)
    }
}

// A scalar as operand.
fn scalar(variant: u8, word: u64) -> Operand
    requires { 0 < variant }
    ensures { result ≡ scalar_operand variant word }
{
    let value = match variant {
        variant::INT => Value::Int(whole::from_bits(word)),
        variant::FLOAT => Value::Float(ieee::from_bits(word)),
        _ => Value::Bool(word == 1),
    };
    Some(value)
}

// The operand at a port that has a value, read where it is found.
fn load_operand(
    located: Located,
    properties: &Properties,
    known: &Known,
    node: usize,
    port: u8,
) -> Operand
    requires { (node < max_nodes) × (port ≤ value_port) × IfSome located.source (λ m. m < max_nodes) }
    ensures { (i : Resolved) → Locates i (property (graph_of properties.now.input.now) node port) (known_of known.now.kinds known.now.words) located → 0 < located.variant → result ≡ operand_of i }
{
    let Some(source) = located.source else {
        return properties.get(node, port);
    };
    known.load(source)
}

// The operand at a port that is located. A scalar is at hand.
#[inline(always)]
pub fn operand_at(
    located: Located,
    properties: &Properties,
    known: &Known,
    node: usize,
    port: u8,
) -> Operand
    requires { (node < max_nodes) × (port ≤ value_port) × IfSome located.source (λ m. m < max_nodes) }
    ensures { (i : Resolved) → Locates i (property (graph_of properties.now.input.now) node port) (known_of known.now.kinds known.now.words) located → result ≡ operand_of i }
{
    if located.variant == variant::UNWIRED {
        return None;
    }
    if located.variant <= variant::BOOL {
        return scalar(located.variant, located.word);
    }
    load_operand(located, properties, known, node, port)
}

// The truth of the condition at a port of a Select or a Branch: one that is resolved, and whose one-variant row is in the table.
pub fn resolve_condition(
    reads: &Reads,
    known: &Known,
    node: usize,
    port: u8,
    class: u8,
) -> Option<bool>
    requires { IsIndexed reads.now × Cells (graph_in reads.now).rows reads.now.rows.now × (class < class_count) × (node < size (graph_in reads.now)) × (port ≤ value_port) }
    ensures { result ≡ resolve_condition (graph_in reads.now) class (port_in reads.now known.now node port) }
{
    let Some(located) = locate(true, reads, known, node, port) else {
        return None;
    };
    let row = Row {
        class,
        first: located.variant,
        second: variant::UNWIRED,
        third: variant::UNWIRED,
    };
    if table::covers(reads.rows, row) {
        let operand = operand_at(located, &reads.properties, known, node, port);
        Some(conversions::truthy(operand))
    } else {
        None
    }
}
