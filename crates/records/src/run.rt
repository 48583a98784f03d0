// Runs of records of one kind, each read by a loop of its own.
ghost use Rattle.std.specs.Prelude.{◌≡◌, ◌≤◌, length};
ghost use Rattle.ir.specs.Kinds.{role_of, text_kind};
ghost use Rattle.ir.specs.Limits.{max_input};
ghost use Rattle.graph.specs.Index.{Next};
ghost use Rattle.graph.specs.Layout.{size_of};
ghost use Rattle.records.specs.Scanned.{Scanned, InRuns};

use graph::{Counts, Record, SLOTS, question, scan};
use ir::{Role, kind};

// The offset past a run, and the counts with it.
#[derive(Clone, Copy)]
pub struct Run {
    pub at: usize,
    pub counts: Counts,
}

// Reads the records of a kind, from an offset on, as long as they pass.
fn read_run(
    kind: u8,
    role: Role,
    size: usize,
    s: &[u8],
    from: usize,
    counts: Counts,
    table: &mut [u16; SLOTS],
) -> Run
    requires { (role ≡ role_of kind) × (size ≡ size_of kind) × (length s.now ≤ max_input) × Scanned s.now table.old counts kind from × (kind ≡ text_kind → ⊥) }
    ensures scanned { (from ≤ result.at) × Scanned s.now table.new result.counts kind result.at }
    ensures every { Next kind result.counts s.now result.at table.new → ⊥ }
{
    let mut more = counts;
    let mut at = from;
    while question::is_next(kind, role, size, s, at, more, table) {
        let record = Record { role, input: s, at };
        scan::index(&record, table);
        more = scan::count(&record, more);
        at += size;
    }
    Run { at, counts: more }
}

// .. with the role a constant in each call, so that each has a loop of its own, with its questions alone. Texts, whose bytes are asked too, and
// annihilators are read one by one.
pub fn read_same(
    kind: u8,
    role: Role,
    size: usize,
    s: &[u8],
    from: usize,
    counts: Counts,
    table: &mut [u16; SLOTS],
) -> Run
    requires { (role ≡ role_of kind) × (size ≡ size_of kind) × (length s.now ≤ max_input) × Scanned s.now table.old counts kind from }
    ensures scanned { (from ≤ result.at) × Scanned s.now table.new result.counts kind result.at }
    ensures every { InRuns role → (kind ≡ text_kind → ⊥) → Next kind result.counts s.now result.at table.new → ⊥ }
{
    if kind == kind::TEXT {
        return Run { at: from, counts };
    }
    match role {
        Role::Node => read_run(kind, Role::Node, size, s, from, counts, table),
        Role::Wire => read_run(kind, Role::Wire, size, s, from, counts, table),
        Role::Property => read_run(kind, Role::Property, size, s, from, counts, table),
        Role::Row => read_run(kind, Role::Row, size, s, from, counts, table),
        Role::Unlisted | Role::Annihilator => Run { at: from, counts },
    }
}
