// The coefficients of one column of a matrix, row by row, in one pass over the listed entries. RULES 2.
ghost use Rattle.std.specs.Prelude.{◌≡◌, ◌+◌, ◌≤◌, length, replicate};
ghost use Rattle.circuit.specs.Circuit.{rows, entries, entry_at};
ghost use Rattle.circuit.specs.WellFormed.{EntryFormed, SectionFormed, RowWords};
ghost use Rattle.field.specs.Field.{p};
ghost use Rattle.columns.specs.Coefficients.{listed_column, coef_column};

// Entry e of the section whose count stands at `start`, into the word of its row where its column is j.
fn write_entry(circuit: &[u32], start: usize, e: usize, j: u32, out: &mut [u32])
    requires entry_formed { EntryFormed p circuit.now start e × (entry_at start e + 3 ≤ length circuit.now) }
    requires out_value { out.old ≡ listed_column circuit.now start j e }
    ensures { out.new ≡ listed_column circuit.now start j (e + 1) }
{
    let entry = circuit::entry::entry_of(circuit, start, e);
    if entry.column != j {
        return;
    }
    let row = entry.row as usize - 1;
    out[row] = entry.value;
}

// All entries of the section, into words that are 0.
fn write_entries(circuit: &[u32], start: usize, j: u32, out: &mut [u32])
    requires { SectionFormed p circuit.now start × (out.old ≡ replicate (rows circuit.now) 0) }
    ensures { out.new ≡ listed_column circuit.now start j (entries circuit.now start) }
{
    let count = circuit[start] as usize;
    for e in 0..count {
        write_entry(circuit, start, e, j, out);
    }
}

// The coefficients of column j of matrix 0, 1 or 2, into as many words as there are rows.
pub fn column_values(circuit: &[u32], matrix: usize, j: u32, out: &mut [u32])
    requires { RowWords p circuit.now matrix out.old }
    ensures { out.new ≡ coef_column circuit.now matrix j }
{
    let start = reader::section_start(circuit, matrix);
    slices::clear(out);
    write_entries(circuit, start, j, out);
}
