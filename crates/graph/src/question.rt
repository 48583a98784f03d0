// Questions 2 to 8 and 12, each asked of the record at an offset, and the first that is answered with no.
ghost use Rattle.std.specs.Prelude.{◌≡◌, true, ◌+◌, ◌≤◌, ◌<◌, length, IfSome};
ghost use Rattle.encoding.specs.Numbers.{byte, u16_at};
ghost use Rattle.ir.specs.declared.Role.{Role};
ghost use Rattle.ir.specs.Classes.{is_annihilator};
ghost use Rattle.ir.specs.Kinds.{role_of, text_kind};
ghost use Rattle.graph.specs.Graph.{Graph, counts_of, member};
ghost use Rattle.graph.specs.Layout.{size_by, size_of};
ghost use Rattle.graph.specs.Questions.{is_listed, is_variant, has_listed_text, orders_no_text, has_nodes, is_first, has_room};
ghost use Rattle.graph.specs.Decode.{refusal_at};
ghost use Rattle.graph.specs.Refusals.{Names, IsOfDecoding};
ghost use Rattle.graph.specs.Index.{Held, Sound, Next, slot};

use crate::{Counts, Record, Refusal, SLOTS};
use encoding::numbers;
use ir::{Role, class, flag, kind, limit, port, variant};

// Whether a row of so many inputs may have the variant at a place.
fn is_variant(inputs: usize, place: usize, variant: u8) -> bool
    ensures { result ≡ is_variant inputs place variant }
{
    if place < inputs {
        variant <= variant::TEXT
    } else {
        variant == variant::UNWIRED
    }
}

pub fn has_annihilator(counts: Counts, class: u8) -> bool
    requires { is_annihilator class ≡ true }
    ensures { (g : Graph) → counts ≡ counts_of g → result ≡ member class g.annihilators }
{
    if class == class::LOGICAL_AND {
        counts.and_false
    } else {
        counts.or_true
    }
}

impl Record<'_> {
    pub fn byte(&self, i: usize) -> u8
        requires { i < size_by self.now.role }
        ensures { result ≡ byte self.now.input.now (self.now.at + i) }
    {
        self.input[self.at + i]
    }

    // A node's number.
    fn node(&self, i: usize) -> usize
        requires { i + 2 ≤ size_by self.now.role }
        ensures { (result ≡ u16_at self.now.input.now (self.now.at + i)) × (result < 65536) }
    {
        numbers::read_u16(self.input, self.at + i)
    }

    // The place of a property's node and port in the table.
    pub fn slot(&self) -> usize
        requires { self.now.role ≡ Role.Property }
        ensures { result ≡ slot (u16_at self.now.input.now (self.now.at + 1)) (byte self.now.input.now (self.now.at + 3)) }
    {
        self.node(1) * port::COUNT + usize::from(self.byte(3))
    }

    #[inline(always)]
    fn is_listed_row(&self) -> bool
        requires { self.now.role ≡ Role.Row }
        ensures { result ≡ is_listed Role.Row self.now.input.now self.now.at }
    {
        let folding = class::folding_of(self.byte(1));
        let inputs = class::input_count(folding);
        let first = is_variant(inputs, 0, self.byte(2));
        let second = is_variant(inputs, 1, self.byte(3));
        let third = is_variant(inputs, 2, self.byte(4));
        class::has_rows(folding) & first & second & third
    }

    #[inline(always)]
    fn is_listed(&self) -> bool
        ensures { result ≡ is_listed self.now.role self.now.input.now self.now.at }
    {
        match self.role {
            Role::Unlisted => false,
            Role::Node => class::is_class(self.byte(1)) & flag::is_flags(self.byte(2)),
            Role::Wire => (self.byte(3) < port::VALUE) & (self.byte(6) < port::VALUE),
            Role::Property => {
                (self.byte(3) <= port::VALUE) & ((self.byte(0) != kind::BOOL) | (self.byte(4) <= 1))
            }
            Role::Row => self.is_listed_row(),
            Role::Annihilator => class::is_annihilator(self.byte(1)),
        }
    }

    // Whether it is no row of an order gate that names text.
    fn orders_no_text(&self) -> bool
        ensures { result ≡ orders_no_text self.now.role self.now.input.now self.now.at }
    {
        if self.role != Role::Row {
            return true;
        }
        let text = (self.byte(2) == variant::TEXT)
            | (self.byte(3) == variant::TEXT)
            | (self.byte(4) == variant::TEXT);
        !(class::is_order(self.byte(1)) & text)
    }

    fn has_nodes(&self, n: usize) -> bool
        ensures { result ≡ has_nodes n self.now.role self.now.input.now self.now.at }
    {
        match self.role {
            Role::Wire => (self.node(1) < n) & (self.node(4) < n),
            Role::Property => self.node(1) < n,
            Role::Unlisted | Role::Node | Role::Row | Role::Annihilator => true,
        }
    }

    fn is_first(&self, counts: Counts, table: &[u16; SLOTS]) -> bool
        requires { Sound counts.nodes self.now.role self.now.input.now self.now.at }
        ensures { (g : Graph) → Held g counts self.now.input.now table.now → result ≡ is_first g self.now.role self.now.input.now self.now.at }
    {
        match self.role {
            Role::Property => {
                let i = self.slot();
                table[i] == 0
            }
            Role::Annihilator => !has_annihilator(counts, self.byte(1)),
            Role::Unlisted | Role::Node | Role::Wire | Role::Row => true,
        }
    }
}

// Whether a text's length and bytes are listed.
fn has_listed_text(kind: u8, s: &[u8], at: usize) -> bool
    requires { (kind ≡ byte s.now at) × (at + size_of kind ≤ length s.now) }
    ensures { result ≡ has_listed_text s.now at }
{
    kind != kind::TEXT || text::is_listed(s, at + 4)
}

fn has_room(counts: Counts, role: Role) -> bool
    ensures { result ≡ has_room counts role }
{
    match role {
        Role::Node => counts.nodes < limit::NODES,
        Role::Wire => counts.wires < limit::WIRES,
        Role::Property => counts.properties < limit::PROPERTIES,
        Role::Row => counts.rows < limit::ROWS,
        Role::Unlisted | Role::Annihilator => true,
    }
}

// The first question that the record at an offset answers with no. `last` is the kind before it.
#[tactic(auto, unfolding(crate::specs::Decode::refusal_at, crate::specs::Questions::first_no))]
pub fn check(s: &[u8], at: usize, last: u8, counts: Counts, table: &[u16; SLOTS]) -> Option<Refusal>
    requires { (at < length s.now) × (counts.nodes ≤ 1024) }
    ensures first { (g : Graph) → Held g counts s.now table.now → Names result (refusal_at last g s.now at) at }
    ensures decoding { IfSome result IsOfDecoding }
{
    let kind = s[at];
    let role = kind::role_of(kind);
    if role == Role::Unlisted {
        return Some(Refusal::UnknownKind(at));
    }
    if s.len() - at <= kind::body_of(kind) {
        return Some(Refusal::CutOff(at));
    }
    let record = Record { role, input: s, at };
    if !record.is_listed() {
        return Some(Refusal::Unlisted(at));
    }
    if !has_listed_text(kind, s, at) {
        return Some(Refusal::Unlisted(at));
    }
    if !record.orders_no_text() {
        return Some(Refusal::OrdersText(at));
    }
    if kind < last {
        return Some(Refusal::OutOfOrder(at));
    }
    if !record.has_nodes(counts.nodes) {
        return Some(Refusal::MissingNode(at));
    }
    if !record.is_first(counts, table) {
        return Some(Refusal::Repeated(at));
    }
    if !has_room(counts, role) {
        return Some(Refusal::TooMany(at));
    }
    None
}

// Whether the record at an offset is one more of a kind other than text, and passes. The records before it are counted, and the last of them is
// of the same kind.
pub fn is_next(
    kind: u8,
    role: Role,
    size: usize,
    s: &[u8],
    at: usize,
    counts: Counts,
    table: &[u16; SLOTS],
) -> bool
    requires { (role ≡ role_of kind) × (size ≡ size_of kind) × (at ≤ length s.now) × (counts.nodes ≤ 1024) × (kind ≡ text_kind → ⊥) }
    ensures next { result ≡ true → Next kind counts s.now at table.now }
    ensures every { (g : Graph) → Held g counts s.now table.now → Next kind counts s.now at table.now → result ≡ true }
{
    if s.len() - at < size {
        return false;
    }
    if s[at] != kind {
        return false;
    }
    let record = Record { role, input: s, at };
    let listed = record.is_listed();
    let ordered = record.orders_no_text();
    let present = record.has_nodes(counts.nodes);
    if !(listed & ordered & present & has_room(counts, role)) {
        return false;
    }
    record.is_first(counts, table)
}
