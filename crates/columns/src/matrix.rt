// The columns of a matrix (RULES 4): the verdicts of the two column calls, and what writes their words.
ghost use Rattle.std.specs.Prelude.{◌≡◌, ◌+◌, ◌≤◌, ◌<◌, leb, length};
ghost use Rattle.outcome.specs.Verdict.{outcome_of, require, ◌and_then◌};
ghost use Rattle.field.specs.Field.{p};
ghost use Rattle.basis.specs.Column.{Prepared};
ghost use Rattle.circuit.specs.Limits.{most_rows};
ghost use Rattle.circuit.specs.Circuit.{rows};
ghost use Rattle.circuit.specs.WellFormed.{RowWords};
ghost use Rattle.circuit.specs.Reader.{circuit_verdict};
ghost use Rattle.qap.specs.Polynomials.{Column};
ghost use Rattle.qap.specs.Refusals.{column_verdict, columns_verdict};
ghost use Rattle.qap.specs.Setting.{standard};
ghost use Rattle.columns.specs.Columns.{ColumnsRoom, ColumnsFrom};

use outcome::{Refusal, require, within};
use refusals::length_verdict;

// The circuit, then 9 for the matrix number.
#[tactic(auto, using(outcome::proofs::Asked::asked))]
fn matrix_verdict(circuit: &[u32], matrix: u32) -> Result<(), Refusal>
    ensures { outcome_of result ≡ circuit_verdict p circuit.now and_then require (leb matrix 2) 9 0 }
{
    reader::circuit_verdict(circuit)?;
    require(matrix <= 2, Refusal::Column)
}

// The circuit, then 9 for both numbers, then 8.
pub fn column_verdict(circuit: &[u32], matrix: u32, column: u32, size: usize) -> Result<(), Refusal>
    ensures { outcome_of result ≡ column_verdict standard circuit.now matrix column size }
{
    matrix_verdict(circuit, matrix)?;
    let n = circuit::counts::columns_of(circuit) as u32;
    let m = circuit::counts::rows_of(circuit);
    require(within(1, column, n), Refusal::Column)?;
    length_verdict(size, m)
}

// The circuit, then 9 for the matrix number alone, then 8.
pub fn columns_verdict(circuit: &[u32], matrix: u32, size: usize) -> Result<(), Refusal>
    ensures { outcome_of result ≡ columns_verdict standard circuit.now matrix size }
{
    matrix_verdict(circuit, matrix)?;
    let n = circuit::counts::columns_of(circuit);
    let m = circuit::counts::rows_of(circuit);
    length_verdict(size, n * m)
}

// The target and the basis weights of 1..m, into m + 1 and m words.
fn prepare(z: &mut [u32], weights: &mut [u32])
    requires { (length z.old ≡ length weights.old + 1) × (0 < length weights.old) × (length weights.old ≤ most_rows) }
    ensures { Prepared p (length weights.old) z.new weights.new }
{
    let inverses = field::table::inverses();
    poly::target(z);
    basis::weights(weights, &inverses);
}

// The one-column writer: column j of matrix 0, 1 or 2, into the words lent for it.
fn write_column(circuit: &[u32], matrix: usize, j: u32, z: &[u32], weights: &[u32], out: &mut [u32])
    requires { RowWords p circuit.now matrix out.old × Prepared p (rows circuit.now) z.now weights.now }
    ensures { Column standard circuit.now matrix j out.new }
{
    let m = out.len();
    let mut values = slices::room();
    crate::coefficients::column_values(circuit, matrix, j, &mut values[..m]);
    basis::column_through(out, &values[..m], z, weights);
}

// As many columns from number `first` on as `count` says, one after the other, each into its own m words.
fn write_columns(
    circuit: &[u32],
    matrix: usize,
    first: u32,
    count: usize,
    z: &[u32],
    weights: &[u32],
    out: &mut [u32],
)
    requires columns_room { ColumnsRoom p circuit.now matrix first count out.old }
    requires prepared { Prepared p (rows circuit.now) z.now weights.now }
    ensures { ColumnsFrom p circuit.now matrix first count out.new }
{
    let m = circuit::counts::rows_of(circuit);
    for t in 0..count {
        let a = t * m;
        let e = a + m;
        write_column(
            circuit,
            matrix,
            first + (t as u32),
            z,
            weights,
            &mut out[a..e],
        );
    }
}

// The same with the target and the weights made once for all of them.
#[tactic(auto, using(slices::proofs::Rooms::cut, circuit::proofs::Rows::few))]
pub fn fill_columns(circuit: &[u32], matrix: usize, first: u32, count: usize, out: &mut [u32])
    requires { ColumnsRoom p circuit.now matrix first count out.old }
    ensures { ColumnsFrom p circuit.now matrix first count out.new }
{
    let m = circuit::counts::rows_of(circuit);
    let mut z_room = slices::room();
    let mut weights_room = slices::room();
    let z = &mut z_room[..m + 1];
    let weights = &mut weights_room[..m];
    prepare(z, weights);
    write_columns(circuit, matrix, first, count, z, weights, out);
}
