// What a record that passed the questions adds: to the counts, and a property to the table.
ghost use Rattle.std.specs.Prelude.{◌≡◌, true, ℕ, ◌+◌, ◌≤◌, ◌<◌, List, length};
ghost use Rattle.encoding.specs.Numbers.{byte};
ghost use Rattle.ir.specs.Classes.{is_annihilator};
ghost use Rattle.ir.specs.Limits.{max_properties};
ghost use Rattle.ir.specs.declared.Role.{Role};
ghost use Rattle.graph.specs.Graph.{Graph, property_at, add, add_property, add_annihilator, counts_of};
ghost use Rattle.graph.specs.Layout.{role_at, size_at};
ghost use Rattle.graph.specs.Questions.{is_first, has_room};
ghost use Rattle.graph.specs.Index.{Indexed, Sound};

use crate::{Counts, Record, SLOTS};
use ir::{Role, class, kind};

fn count_annihilator(class: u8, counts: Counts) -> Counts
    requires { (is_annihilator class ≡ true) × (counts.annihilators ≤ 65536) }
    ensures { (g : Graph) → counts ≡ counts_of g → result ≡ counts_of (add_annihilator g class) }
{
    Counts {
        annihilators: counts.annihilators + 1,
        and_false: counts.and_false | (class == class::LOGICAL_AND),
        or_true: counts.or_true | (class == class::LOGICAL_OR),
        ..counts
    }
}

fn count_property(kind: u8, counts: Counts) -> Counts
    requires { (counts.properties < max_properties) × (counts.texts ≤ counts.properties) }
    ensures { (g : Graph) (s : List ℕ) (at : ℕ) → counts ≡ counts_of g → kind ≡ byte s at → role_at s at ≡ Role.Property → result ≡ counts_of (add_property g (property_at s at)) }
{
    let mut more = counts;
    more.properties += 1;
    more.texts += usize::from(kind == kind::TEXT);
    more
}

pub fn count(r: &Record, counts: Counts) -> Counts
    requires { Sound counts.nodes r.now.role r.now.input.now r.now.at × (has_room counts r.now.role ≡ true) × (counts.annihilators ≤ 65536) × (counts.texts ≤ counts.properties) × (r.now.role ≡ role_at r.now.input.now r.now.at) }
    ensures { (g : Graph) → counts ≡ counts_of g → result ≡ counts_of (add r.now.role g r.now.input.now r.now.at) }
{
    let mut more = counts;
    match r.role {
        Role::Unlisted => return more,
        Role::Node => more.nodes += 1,
        Role::Wire => more.wires += 1,
        Role::Property => return count_property(r.byte(0), counts),
        Role::Row => more.rows += 1,
        Role::Annihilator => return count_annihilator(r.byte(1), counts),
    }
    more
}

pub fn index(r: &Record, table: &mut [u16; SLOTS])
    requires role_value { (r.now.role ≡ role_at r.now.input.now r.now.at) × (r.now.at + size_at r.now.input.now r.now.at ≤ length r.now.input.now) }
    requires at_bound { (r.now.at < 65536) × ((n : ℕ) × Sound n r.now.role r.now.input.now r.now.at × (0 < n → 0 < r.now.at)) }
    ensures { (g : Graph) → is_first g r.now.role r.now.input.now r.now.at ≡ true → Indexed g.properties r.now.input.now table.old → Indexed (add r.now.role g r.now.input.now r.now.at).properties r.now.input.now table.new }
{
    if r.role == Role::Property {
        let i = r.slot();
        table[i] = r.at as u16;
    }
}
