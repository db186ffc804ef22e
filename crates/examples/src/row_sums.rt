// The verdict over the rows, and row sums, of assignments to K and K1 (RULES 4 and 5, number 10 of RULES 6).
ghost use Rattle.std.specs.Prelude.{◌≡◌, length};
ghost use Rattle.outcome.specs.Verdict.{Accepted};
ghost use Rattle.circuit.specs.Circuit.{rows};
ghost use Rattle.assignment.specs.Assignment.{circuit_then_assignment};
ghost use Rattle.field.specs.Field.{p};

use crate::printing::{heading, line, outcome_line};
use crate::samples::{K, K1};
use field::MINUS_ONE;

// The verdict, and the sums of A, B and C over all columns.
fn whole(circuit: &[u32], values: &[u32], a: &mut [u32], b: &mut [u32], c: &mut [u32])
    requires accepted { Accepted (circuit_then_assignment p circuit.now values.now) }
    requires lengths { (length a.old ≡ rows circuit.now) × (length b.old ≡ rows circuit.now) × (length c.old ≡ rows circuit.now) }
{
    outcome_line(rows::rows_verdict(circuit, values, a, b, c));
    line(a);
    line(b);
    line(c);
}

// Of A, B and C the sums over the public columns, from the public section alone, and over the private ones.
fn parts(circuit: &[u32], values: &[u32], sums: &mut [u32])
    requires { Accepted (circuit_then_assignment p circuit.now values.now) × (length sums.old ≡ rows circuit.now) }
{
    let q = circuit::counts::publics_of(circuit);
    let n = circuit::counts::columns_of(circuit);
    let public = assignment::public_section(circuit, values);
    for matrix in 0..3 {
        rows::row_sums(circuit, matrix, public, 0, q, sums);
        line(sums);
        rows::row_sums(circuit, matrix, values, q, n, sums);
        line(sums);
    }
}

// Rows are asked about accepted words only.
fn sums(circuit: &[u32], values: &[u32], a: &mut [u32], b: &mut [u32], c: &mut [u32])
    requires { (length a.old ≡ rows circuit.now) × (length b.old ≡ rows circuit.now) × (length c.old ≡ rows circuit.now) }
{
    if assignment::assignment_verdict(circuit, values).is_ok() {
        whole(circuit, values, a, b, c);
        parts(circuit, values, a);
    }
}

// K with a public value and two private ones.
fn two_rows(public: u32, first: u32, second: u32) {
    let values = [2, 1, public, 2, first, second];
    sums(&K, &values, &mut [0, 0], &mut [0, 0], &mut [0, 0]);
}

// K1 with a private value.
fn one_row(private: u32) {
    sums(&K1, &[1, 1, 1, private], &mut [0], &mut [0], &mut [0]);
}

pub fn examples() {
    heading(b"row sums");
    two_rows(45, 3, 9);
    two_rows(45, 3, 10);
    two_rows(46, 3, 9);
    two_rows(MINUS_ONE, MINUS_ONE, MINUS_ONE);
    one_row(1);
    one_row(2);
    one_row(0);
}
