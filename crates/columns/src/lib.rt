// One column and all columns of a matrix (RULES 4). No call asks anything of its input; refused, it changes no
// word lent to it.
#![tactic(auto)]

ghost use Rattle.outcome.specs.Verdict.{outcome_of};
ghost use Rattle.qap.specs.Calls.{ColumnCall, ColumnsCall};
ghost use Rattle.qap.specs.Setting.{standard};

use outcome::Refusal;

mod coefficients;
mod matrix;

// One column of matrix 0, 1 or 2, into as many words as there are rows.
#[tactic(auto, using(outcome::proofs::Asked::asked))]
pub fn column(circuit: &[u32], matrix: u32, column: u32, out: &mut [u32]) -> Result<(), Refusal>
    ensures { ColumnCall standard circuit.now matrix column out.old out.new (outcome_of result) }
{
    matrix::column_verdict(circuit, matrix, column, out.len())?;
    matrix::fill_columns(circuit, matrix as usize, column, 1, out);
    Ok(())
}

// All columns of a matrix, one after the other.
#[tactic(auto, using(outcome::proofs::Asked::asked))]
pub fn columns(circuit: &[u32], matrix: u32, out: &mut [u32]) -> Result<(), Refusal>
    ensures { ColumnsCall standard circuit.now matrix out.old out.new (outcome_of result) }
{
    matrix::columns_verdict(circuit, matrix, out.len())?;
    let n = circuit::counts::columns_of(circuit);
    matrix::fill_columns(circuit, matrix as usize, 1, n, out);
    Ok(())
}
