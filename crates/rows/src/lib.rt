// Row sums of a matrix in one pass over its listed entries, and the lowest failing row (RULES 6, number 10).
#![tactic(auto)]

ghost use Rattle.std.specs.Prelude.{◌≡◌, ◌+◌, ◌≤◌, length};
ghost use Rattle.outcome.specs.Verdict.{outcome_of};
ghost use Rattle.circuit.specs.Limits.{most_columns};
ghost use Rattle.circuit.specs.Circuit.{rows, columns, entries, entry_at};
ghost use Rattle.circuit.specs.WellFormed.{EntryFormed, SectionFormed, Formed, RowWords};
ghost use Rattle.circuit.specs.Totals.{table};
ghost use Rattle.assignment.specs.Assignment.{assigned_at};
ghost use Rattle.assignment.specs.WellFormed.{AssignmentFormed};
ghost use Rattle.field.specs.Field.{p};
ghost use Rattle.rows.specs.Rows.{row_sums};
ghost use Rattle.rows.specs.Sums.{Span, entry_sums, with_entry, sums_verdict, RowsRead};

use circuit::entry::entry_of;
use outcome::{Refusal, require};

// The index of a column's value in an assignment.
fn assigned_at(circuit: &[u32], column: usize) -> usize
    requires { (3 ≤ length circuit.now) × (column ≤ most_columns) }
    ensures { result ≡ assigned_at circuit.now column }
{
    if column <= circuit::counts::publics_of(circuit) {
        return column;
    }
    column + 1
}

// Entry e of the section whose count stands at `start`, added to its row where its column counts.
fn add_entry(
    circuit: &[u32],
    start: usize,
    e: usize,
    values: &[u32],
    from: usize,
    to: usize,
    out: &mut [u32],
)
    requires formed { Formed p circuit.now × EntryFormed p circuit.now start e × (entry_at start e + 3 ≤ length circuit.now) }
    requires span { Span circuit.now values.now from to × (length out.old ≡ rows circuit.now) }
    ensures { out.new ≡ with_entry p circuit.now start values.now from to e out.old }
{
    let entry = entry_of(circuit, start, e);
    let column = entry.column as usize;
    if column <= from || to < column {
        return;
    }
    let row = entry.row as usize - 1;
    let value = assigned_at(circuit, column);
    out[row] = field::add_scaled(out[row], values[value], entry.value);
}

// All entries of the section, added to words that are 0.
fn add_entries(
    circuit: &[u32],
    start: usize,
    values: &[u32],
    from: usize,
    to: usize,
    out: &mut [u32],
)
    requires formed { Formed p circuit.now × SectionFormed p circuit.now start }
    requires span { Span circuit.now values.now from to × (out.old ≡ table (λ i. 0) (rows circuit.now)) }
    ensures { out.new ≡ entry_sums p circuit.now start values.now from to (entries circuit.now start) }
{
    let entries = circuit[start] as usize;
    for e in 0..entries {
        add_entry(circuit, start, e, values, from, to, out);
    }
}

// The sums of one matrix over the columns after `from` up to `to`, as field words, row by row.
pub fn row_sums(
    circuit: &[u32],
    matrix: usize,
    values: &[u32],
    from: usize,
    to: usize,
    out: &mut [u32],
)
    requires { RowWords p circuit.now matrix out.old × Span circuit.now values.now from to }
    ensures { out.new ≡ row_sums p circuit.now values.now matrix from to }
{
    let start = reader::section_start(circuit, matrix);
    slices::clear(out);
    add_entries(circuit, start, values, from, to, out);
}

// Over all columns of an assignment.
pub fn whole_sums(circuit: &[u32], matrix: usize, values: &[u32], out: &mut [u32])
    requires { RowWords p circuit.now matrix out.old × AssignmentFormed p circuit.now values.now }
    ensures { out.new ≡ row_sums p circuit.now values.now matrix 0 (columns circuit.now) }
{
    let n = circuit::counts::columns_of(circuit);
    row_sums(circuit, matrix, values, 0, n, out);
}

// The lowest row where the product of the first two sums is not the third.
fn sums_verdict(a: &[u32], b: &[u32], c: &[u32]) -> Result<(), Refusal>
    requires { (length b.now ≡ length a.now) × (length c.now ≡ length a.now) }
    ensures { outcome_of result ≡ sums_verdict p a.now b.now c.now }
{
    for i in 0..a.len() {
        require(field::times(a[i], b[i]) == c[i], Refusal::Row(i + 1))?;
    }
    Ok(())
}

// The three lists of sums over all columns, and 10 at the lowest failing row.
pub fn rows_verdict(
    circuit: &[u32],
    values: &[u32],
    a: &mut [u32],
    b: &mut [u32],
    c: &mut [u32],
) -> Result<(), Refusal>
    requires formed { Formed p circuit.now × AssignmentFormed p circuit.now values.now }
    requires lengths { (length a.old ≡ rows circuit.now) × (length b.old ≡ rows circuit.now) × (length c.old ≡ rows circuit.now) }
    ensures { RowsRead p circuit.now values.now a.new b.new c.new (outcome_of result) }
{
    whole_sums(circuit, 0, values, a);
    whole_sums(circuit, 1, values, b);
    whole_sums(circuit, 2, values, c);
    sums_verdict(a, b, c)
}
