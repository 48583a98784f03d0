// The records of the answer that say what is known of each node and what becomes of it, and how long they are.
#![tactic(auto)]

ghost use Rattle.std.specs.Prelude.{◌≡◌, cond, List, ◌++◌, ℕ, ◌+◌, ◌*◌, ◌≤◌, ◌<◌, eqb, leb, length, get_or};
ghost use Rattle.ir.specs.Limits.{max_nodes};
ghost use Rattle.ir.specs.Kinds.{role_of};
ghost use Rattle.ir.specs.declared.Role.{Role};
ghost use Rattle.encoding.specs.Numbers.{Written};
ghost use Rattle.encoding.specs.Words.{held_by};
ghost use Rattle.model.specs.Answer.{known_bytes};
ghost use Rattle.state.specs.Held.{held, known_of, is_kind};
ghost use Rattle.answer.specs.Nodes.{known_records, literal_fate, fate_by, fate_records, composite_count};

use encoding::words::Words;
use encoding::{numbers, values};
use ir::{kind, limit, port};
use state::{BECOME_LITERAL, KEPT, Known, UNKNOWN};

// The kinds of the records of fates. A planned literal's kind is this much above that of its value.
pub const FATE_KEPT: u8 = 0x10;

pub const FATE_REMOVED: u8 = 0x11;

const FATE_LITERAL: u8 = 0x0F;

// How long a record of a fate is without a value, and how long a record of a node is at most.
const FATE_SIZE: usize = 3;

const LARGEST: usize = 36;

// How long the two records of a node are at most where its value is a scalar, and how much longer where it is a composite or a text.
const SCALAR_SIZES: usize = 23;

const COMPOSITE_MORE: usize = 48;

// ---- sizes

fn known_size(kind: u8) -> usize
    requires { is_kind kind }
    ensures { ((i a b c d : ℕ) → result ≡ length (known_bytes i (held kind a b c d))) × (result ≤ LARGEST) }
{
    if kind == UNKNOWN {
        0
    } else {
        1 + kind::body_of(kind)
    }
}

fn fate_size(action: u8, kind: u8) -> usize
    requires { is_kind kind }
    ensures { ((i a b c d : ℕ) → result ≡ length (fate_by i action (held kind a b c d))) × (result ≤ LARGEST) }
{
    if action != BECOME_LITERAL || kind == UNKNOWN {
        return FATE_SIZE;
    }
    kind::body_of(kind)
}

// How many bytes the records of the first `nodes` nodes have.
fn nodes_size(kinds: &[u8; limit::NODES], actions: &[u8; limit::NODES], nodes: usize) -> usize
    requires { (nodes ≤ max_nodes) × ((m : ℕ) → is_kind (get_or kinds.now m 0)) }
    ensures { (words : List ℕ) → result ≡ length (known_records kinds.now words nodes) + length (fate_records kinds.now words actions.now nodes) }
{
    let mut sum = 0;
    for i in 0..nodes {
        sum += known_size(kinds[i]) + fate_size(actions[i], kinds[i]);
    }
    sum
}

// How many of the first `nodes` nodes have a composite or a text.
fn count_composites(kinds: &[u8; limit::NODES], nodes: usize) -> usize
    requires { (nodes ≤ max_nodes) × ((m : ℕ) → is_kind (get_or kinds.now m 0)) }
    ensures bound { (words actions : List ℕ) → length (known_records kinds.now words nodes) + length (fate_records kinds.now words actions nodes) ≤ SCALAR_SIZES * nodes + COMPOSITE_MORE * result }
    ensures few { result ≤ nodes }
    ensures count { result ≡ composite_count kinds.now nodes }
{
    let mut count = 0;
    for i in 0..nodes {
        count += usize::from(kind::BOOL < kinds[i]);
    }
    count
}

// The same, asked first whether there is one.
fn composites(kinds: &[u8; limit::NODES], nodes: usize) -> usize
    requires { (nodes ≤ max_nodes) × ((m : ℕ) → is_kind (get_or kinds.now m 0)) }
    ensures bound { (words actions : List ℕ) → length (known_records kinds.now words nodes) + length (fate_records kinds.now words actions nodes) ≤ SCALAR_SIZES * nodes + COMPOSITE_MORE * result }
    ensures few { result ≤ nodes }
    ensures count { result ≡ composite_count kinds.now nodes }
{
    if state::any_above(kinds, nodes, kind::BOOL) {
        return count_composites(kinds, nodes);
    }
    0
}

// Whether the records of the first `nodes` nodes fit so much room. They are measured only where a bound does not tell.
pub fn nodes_fit(known: &Known, actions: &[u8; limit::NODES], nodes: usize, room: usize) -> bool
    requires { (nodes ≤ max_nodes) × ((m : ℕ) → is_kind (get_or known.now.kinds m 0)) }
    ensures { (words : List ℕ) → result ≡ leb (length (known_records known.now.kinds words nodes) + length (fate_records known.now.kinds words actions.now nodes)) room }
{
    if SCALAR_SIZES * nodes + COMPOSITE_MORE * composites(&known.kinds, nodes) <= room {
        return true;
    }
    nodes_size(&known.kinds, actions, nodes) <= room
}

// ---- writing

fn write_known(known: &Known, i: usize, out: &mut [u8], at: usize) -> usize
    requires { (i < max_nodes) × (at + length (known_bytes i (known_of known.now.kinds known.now.words i)) ≤ length out.old) × ((m : ℕ) → is_kind (get_or known.now.kinds m 0)) }
    ensures { Written (known_bytes i (known_of known.now.kinds known.now.words i)) out.old out.new at result }
{
    let kind = known.kinds[i];
    if kind == UNKNOWN {
        return at;
    }
    let w = known.words_at(i);
    values::write_value(out, at, i, port::VALUE, kind, w)
}

// The known nodes in number order.
fn write_known_records(known: &Known, nodes: usize, out: &mut [u8], at: usize) -> usize
    requires { (nodes ≤ max_nodes) × (at + length (known_records known.now.kinds known.now.words nodes) ≤ length out.old) × ((m : ℕ) → is_kind (get_or known.now.kinds m 0)) }
    ensures { Written (known_records known.now.kinds known.now.words nodes) out.old out.new at result }
{
    let mut next = at;
    for i in 0..nodes {
        next = write_known(known, i, out, next);
    }
    next
}

fn write_literal(i: usize, kind: u8, w: Words, out: &mut [u8], at: usize) -> usize
    requires { (role_of kind ≡ Role.Property) × (at + length (literal_fate i (Some (held_by kind w))) ≤ length out.old) }
    ensures { Written (literal_fate i (Some (held_by kind w))) out.old out.new at result }
{
    let next = numbers::write_head(out, at, FATE_LITERAL + kind, i);
    values::write_bytes(out, next, kind, w)
}

fn fate_of(action: u8) -> u8
    ensures { result ≡ cond (eqb action KEPT) FATE_KEPT FATE_REMOVED }
{
    if action == KEPT {
        FATE_KEPT
    } else {
        FATE_REMOVED
    }
}

fn write_fate(known: &Known, action: u8, i: usize, out: &mut [u8], at: usize) -> usize
    requires { (i < max_nodes) × (at + length (fate_by i action (known_of known.now.kinds known.now.words i)) ≤ length out.old) × ((m : ℕ) → is_kind (get_or known.now.kinds m 0)) }
    ensures { Written (fate_by i action (known_of known.now.kinds known.now.words i)) out.old out.new at result }
{
    if action != BECOME_LITERAL {
        let fate = fate_of(action);
        return numbers::write_head(out, at, fate, i);
    }
    let kind = known.kinds[i];
    if kind == UNKNOWN {
        return numbers::write_head(out, at, FATE_KEPT, i);
    }
    let w = known.words_at(i);
    write_literal(i, kind, w, out, at)
}

// The fates in number order.
fn write_fates(
    known: &Known,
    actions: &[u8; limit::NODES],
    nodes: usize,
    out: &mut [u8],
    at: usize,
) -> usize
    requires { (nodes ≤ max_nodes) × (at + length (fate_records known.now.kinds known.now.words actions.now nodes) ≤ length out.old) × ((m : ℕ) → is_kind (get_or known.now.kinds m 0)) }
    ensures { Written (fate_records known.now.kinds known.now.words actions.now nodes) out.old out.new at result }
{
    let mut next = at;
    for i in 0..nodes {
        next = write_fate(known, actions[i], i, out, next);
    }
    next
}

// The known values, then the fates, at the front of the buffer.
pub fn write_nodes(
    known: &Known,
    actions: &[u8; limit::NODES],
    nodes: usize,
    out: &mut [u8],
) -> usize
    requires { (nodes ≤ max_nodes) × (length (known_records known.now.kinds known.now.words nodes) + length (fate_records known.now.kinds known.now.words actions.now nodes) ≤ length out.old) × ((m : ℕ) → is_kind (get_or known.now.kinds m 0)) }
    ensures { Written (known_records known.now.kinds known.now.words nodes ++ fate_records known.now.kinds known.now.words actions.now nodes) out.old out.new 0 result }
{
    let fates = write_known_records(known, nodes, out, 0);
    write_fates(known, actions, nodes, out, fates)
}
