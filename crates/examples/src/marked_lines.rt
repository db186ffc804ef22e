// Lines a to m of RULES 9, then what it says is run only, then J through every call. Lent words are 9 before the call.
use crate::printing::{call_line, heading, outcome_line};
use crate::samples::{ASSIGNMENT, K, K1};
use field::{MINUS_ONE, P};
use qap::{Blinders, FourAnswers};

const NONE: Blinders = Blinders {
    first: 0,
    second: 0,
    third: 0,
};

// J's.
const BLINDERS: Blinders = Blinders {
    first: 1,
    second: 2,
    third: 3,
};

fn target(m: u32, out: &mut [u32]) {
    let o = target::target(m, out);
    call_line(o, out);
}

fn column(circuit: &[u32], matrix: u32, j: u32) {
    let mut out = [9u32; 2];
    let o = columns::column(circuit, matrix, j, &mut out);
    call_line(o, &out);
}

fn column_of_k(matrix: u32, j: u32) {
    column(&K, matrix, j);
}

fn columns(matrix: u32) {
    let mut out = [9u32; 8];
    let o = columns::columns(&K, matrix, &mut out);
    call_line(o, &out);
}

// K with a public value, the last private value and blinders.
fn quotient(public: u32, last: u32, d: Blinders) {
    let mut out = [9u32; 3];
    let o = quotient::quotient(&K, &[2, 1, public, 2, 3, last], d, &mut out);
    call_line(o, &out);
}

// K1 with a private value.
fn one_row(private: u32) {
    let d = Blinders {
        first: 1,
        second: 1,
        third: 0,
    };
    let mut out = [9u32; 2];
    let o = quotient::quotient(&K1, &[1, 1, 1, private], d, &mut out);
    call_line(o, &out);
}

fn answers(s: u32) {
    let found = answers::answers(&K, &ASSIGNMENT, BLINDERS, s);
    let r = answers::told_answers(found);
    call_line(found.map(|_| ()), &[r.first, r.second, r.third, r.fourth]);
}

// A candidate quotient that ends in `last`.
fn division(last: u32) {
    outcome_line(division_check::check_division(&K, &ASSIGNMENT, BLINDERS, &[8, 8, last]));
}

// The tablet's check of J's public section, point and first three answers.
fn tablet(fourth: u32) {
    let r = FourAnswers {
        first: 17,
        second: 7,
        third: 2013265918,
        fourth,
    };
    outcome_line(answer_check::check_answers(&K, &[2, 1, 45], 3, r));
}

// K with an entry's value 0.
fn value_zero() {
    let mut k = K;
    k[6] = 0;
    column(&k, 0, 3);
}

// K with the first entry of A listed twice.
fn entry_twice() {
    let mut k = K;
    k[7] = 1;
    k[8] = 3;
    k[9] = 1;
    column(&k, 0, 3);
}

// In the order of the letters.
fn marked() {
    target(2, &mut [9, 9, 9]);
    column_of_k(0, 3);
    column_of_k(1, 1);
    quotient(45, 9, NONE);
    quotient(45, 9, BLINDERS);
    answers(0);
    quotient(45, 10, BLINDERS);
    quotient(46, 9, BLINDERS);
    one_row(1);
    one_row(2);
    division(3);
    value_zero();
    entry_twice();
}

// Points that are rows or no field words, then J's and the largest.
fn points() {
    answers(1);
    answers(2);
    answers(P);
    answers(3);
    answers(MINUS_ONE);
}

fn largest_target() {
    let mut z = [9u32; 257];
    let o = target::target(256, &mut z);
    call_line(o, &[z[0], z[255], z[256]]);
}

fn too_many_rows() {
    let mut z = [9u32; 258];
    let o = target::target(257, &mut z);
    call_line(o, &[z[0], z[257]]);
}

// A word more than the target has.
fn long_room() {
    target(2, &mut [9, 9, 9, 9]);
}

pub fn examples() {
    heading(b"marked lines");
    marked();
    points();
    largest_target();
    too_many_rows();
    long_room();
    columns(0);
    columns(1);
    columns(2);
    columns(3);
    division(2);
    tablet(50);
    tablet(51);
}
