// The verdict over assignments at the borders of every check, each with the public section that is handed out; then
// over public sections alone (RULES 3, numbers 6 and 7 of RULES 6).
use crate::printing::{call_line, heading, outcome_line};
use crate::samples::{K, LARGEST};
use field::{MINUS_ONE, P};

fn assigned(circuit: &[u32], words: &[u32]) {
    let found = assignment::assignment_verdict(circuit, words);
    call_line(found, assignment::public_section(circuit, words));
}

fn to_k(words: &[u32]) {
    assigned(&K, words);
}

// An assignment of six words, as K's is.
fn six(a: u32, b: u32, c: u32, d: u32, e: u32, f: u32) {
    to_k(&[a, b, c, d, e, f]);
}

fn values() {
    six(2, 1, 45, 2, 3, 9);
    six(1, 1, 45, 2, 3, 9);
    six(3, 1, 45, 2, 3, 9);
    six(2, 1, 45, 1, 3, 9);
    six(2, 1, 45, P, 3, 9);
    six(2, 0, 45, 2, 3, 9);
    six(2, 2, 45, 2, 3, 9);
    six(2, 1, MINUS_ONE, 2, 3, 9);
    six(2, 1, P, 2, 3, 9);
    six(2, 1, 45, 2, P, 9);
    six(2, 1, 45, 2, 3, P);
    six(2, 1, 45, 2, 3, MINUS_ONE);
    six(2, 0, P, 2, 3, 9);
    six(2, 1, LARGEST, 2, 3, P);
    six(1, 0, P, 2, 3, 9);
}

fn lengths() {
    to_k(&[2, 1, 45, 2, 3]);
    to_k(&[2, 1, 45, 2, 3, 9, 0]);
    to_k(&[2]);
}

fn to_bad(words: &[u32]) {
    let mut bad = K;
    bad[6] = 0;
    assigned(&bad, words);
}

// The circuit is judged first.
fn bad_circuit() {
    to_bad(&[2, 0, 45, 2, 3]);
    to_bad(&[2, 1, 45, 2, 3, 9]);
}

// K with four public columns.
fn all_public(private_count: u32) {
    let mut k = K;
    k[1] = 4;
    assigned(&k, &[4, 1, 45, 3, 9, private_count]);
}

// The verdict over a public section alone, which is asked beside an accepted circuit only.
fn public(circuit: &[u32], words: &[u32]) {
    if reader::circuit_verdict(circuit).is_ok() {
        outcome_line(assignment::public_words_verdict(circuit, words));
    }
}

fn public_to_k(words: &[u32]) {
    public(&K, words);
}

// A public section of three words, as K's is.
fn three(a: u32, b: u32, c: u32) {
    public_to_k(&[a, b, c]);
}

fn publics() {
    three(2, 1, 45);
    public_to_k(&[2, 1]);
    public_to_k(&[2, 1, 45, 2]);
    three(1, 1, 45);
    three(2, 2, P);
    three(2, 1, P);
    three(2, 1, MINUS_ONE);
}

pub fn examples() {
    heading(b"assignments");
    values();
    lengths();
    bad_circuit();
    all_public(0);
    all_public(1);
    publics();
}
