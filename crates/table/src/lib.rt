// The table of rows that comes with each graph, and the graph's annihilators.
#![tactic(auto)]

ghost use Rattle.std.specs.Prelude.{◌≡◌, true, cond, List, [], ◌∷◌, ◌++◌, length, get_or, ℕ, ◌<◌};
ghost use Rattle.ir.specs.Classes.{settles};
ghost use Rattle.graph.specs.declared.Row.{Row};
ghost use Rattle.graph.specs.Graph.{row_at};
ghost use Rattle.graph.specs.Questions.{is_listed};
ghost use Rattle.ir.specs.declared.Role.TheVariants.{Row as RowRole};
ghost use Rattle.records.specs.Access.{rows_of, no_row};
ghost use Rattle.table.specs.Table.{covers as coversOf, has_cell, row_number, VariantsFit, SameNumber, number_count, word_count, has_number, is_marked, Marks, Cells, settling, counted};

use graph::{Counts, Row};
use ir::{class, variant};
use records::access;

// The Bool that settles a gate: a false an AND, a true an OR.
#[derive(Clone, Copy)]
pub enum AnnihilatorKind {
    AndFalse,
    OrTrue,
}

// How many numbers there are of rows of a listed class whose variants fit.
const NUMBER_COUNT: usize = class::COUNT * variant::COUNT * variant::COUNT * variant::COUNT;

const WORD_BITS: usize = 64;

const WORD_COUNT: usize = (NUMBER_COUNT + WORD_BITS - 1) / WORD_BITS;

// The table of rows: a bit for each number.
pub type Rows = [u64; WORD_COUNT];

pub const NO_ROWS: Rows = [0; WORD_COUNT];

// Whether the table answers for a row: it does for each that passes question 4.
fn has_cell(row: Row) -> bool
    ensures cell { result ≡ has_cell row }
    ensures listed { (s : List ℕ) (at : ℕ) → row_at s at ≡ row → is_listed RowRole s at ≡ true → result ≡ true }
    ensures fits { result ≡ true → VariantsFit row }
{
    (usize::from(row.class) < class::COUNT)
        & (usize::from(row.first) < variant::COUNT)
        & (usize::from(row.second) < variant::COUNT)
        & (usize::from(row.third) < variant::COUNT)
}

// A row as a single number.
fn row_number(row: Row) -> usize
    ensures number { result ≡ row_number row }
    ensures same_number { (r : Row) → SameNumber row r }
{
    let pair = usize::from(row.class) * variant::COUNT + usize::from(row.first);
    let triple = pair * variant::COUNT + usize::from(row.second);
    triple * variant::COUNT + usize::from(row.third)
}

// Whether a number is in the table.
fn has_number(cells: &Rows, n: usize) -> bool
    requires { n < number_count }
    ensures { result ≡ has_number cells.now n }
{
    let k = n / WORD_BITS;
    (cells[k] >> (n % WORD_BITS)) % 2 == 1
}

// Puts a number into the table.
fn mark_number(cells: &mut Rows, n: usize)
    requires { (n < number_count) × (length cells.old ≡ word_count) }
    ensures { Marks cells.old n cells.new }
{
    let k = n / WORD_BITS;
    cells[k] |= 1 << (n % WORD_BITS);
}

// Marks the k-th of a run of row records, where the table answers for it.
fn mark(rows: &[u8], k: usize, cells: &mut Rows)
    requires { (k < length (rows_of rows.now)) × (length cells.old ≡ word_count) }
    ensures { (before : List Row) → Cells before cells.old → Cells (before ++ (get_or (rows_of rows.now) k no_row ∷ [])) cells.new }
{
    let row = access::row(rows, k);
    if has_cell(row) {
        mark_number(cells, row_number(row));
    }
}

// Makes the table that of a run of row records: of the rows that it answers for, these and no others.
pub fn index_rows(rows: &[u8], cells: &mut Rows)
    ensures { Cells (rows_of rows.now) cells.new }
{
    *cells = NO_ROWS;
    for k in 0..rows.len() / access::ROW_SIZE {
        mark(rows, k, cells);
    }
}

// Whether the table has this row: its number is formed once and looked up, without a loop.
pub fn covers(cells: &Rows, row: Row) -> bool
    requires { has_cell row ≡ true }
    ensures marked { result ≡ is_marked cells.now row }
    ensures rows { (rows : List Row) → Cells rows cells.now → result ≡ coversOf rows row }
{
    has_number(cells, row_number(row))
}

// The annihilator of a class, where a record of it was counted.
#[tactic(auto, unfolding(ir::specs::Classes::settles))]
pub fn annihilator(counts: Counts, class: u8) -> Option<AnnihilatorKind>
    ensures { settling result ≡ cond (counted counts class) (settles class) None }
{
    match class {
        class::LOGICAL_AND if counts.and_false => Some(AnnihilatorKind::AndFalse),
        class::LOGICAL_OR if counts.or_true => Some(AnnihilatorKind::OrTrue),
        _ => None,
    }
}
