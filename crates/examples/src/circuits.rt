// The reader's verdict over circuits at the borders of every check (RULES 2, numbers 1 to 5 of RULES 6).
use crate::printing::{heading, outcome_line};
use crate::samples::{K, LARGEST};
use field::{MINUS_ONE, P};

fn read(words: &[u32]) {
    outcome_line(reader::circuit_verdict(words));
}

fn change(words: &mut [u32; 27], at: usize, word: u32) {
    if at < 27 {
        words[at] = word;
    }
}

// Behind a reference the type says how many words there are, also once some were changed.
fn read_all(words: &[u32; 27]) {
    read(words);
}

// K with two words changed.
fn two(at: usize, word: u32, other: usize, second: u32) {
    let mut w = K;
    change(&mut w, at, word);
    change(&mut w, other, second);
    read_all(&w);
}

// K with one word changed.
fn one(at: usize, word: u32) {
    two(at, word, at, word);
}

// The first words, as a whole circuit and as the beginning of words that may go on.
fn read_part(words: &[u32; 27], length: usize) {
    let all = &words[..];
    if length <= all.len() {
        let part = &all[..length];
        read(part);
        outcome_line(reader::prefix_verdict(part));
    }
}

// The first words of K, one of them changed.
fn short(length: usize, at: usize, word: u32) {
    let mut w = K;
    change(&mut w, at, word);
    read_part(&w, length);
}

fn counts() {
    one(0, 0);
    one(0, 1);
    one(0, 2);
    one(0, 256);
    one(0, 257);
    one(1, 0);
    one(1, 4);
    one(1, 5);
    one(2, 0);
    one(2, 3);
    one(2, 256);
    one(2, 257);
    one(3, 1024);
    one(3, 1025);
    one(10, LARGEST);
    one(20, 1025);
}

fn entries() {
    one(4, 0);
    one(4, 3);
    one(5, 0);
    one(5, 5);
    one(6, 0);
    one(6, 1);
    one(6, MINUS_ONE);
    one(6, P);
    one(7, 0);
    one(25, 5);
    one(26, 0);
    two(7, 1, 8, 3);
    two(7, 1, 8, 2);
    two(7, 1, 8, 4);
    two(17, 2, 18, 1);
    two(14, 1, 15, 3);
}

fn two_faults() {
    two(0, 0, 2, 0);
    two(1, 0, 2, 0);
    two(0, 257, 3, 1025);
    two(4, 9, 6, 0);
    two(6, 0, 9, 0);
    two(7, 1, 9, 0);
    two(8, 9, 10, 1025);
    two(10, 1025, 13, 0);
    two(20, 3, 21, 9);
}

fn lengths() {
    short(0, 0, 2);
    short(2, 0, 0);
    short(3, 0, 0);
    short(3, 0, 2);
    short(4, 0, 2);
    short(9, 4, 9);
    short(10, 0, 2);
    short(11, 0, 2);
    short(26, 0, 2);
    short(27, 20, 1);
    short(27, 20, 0);
    short(27, 0, 2);
}

// 256 rows with 4 entries each: 1,024 in all, and two empty sections.
fn full(words: &mut [u32; 3078]) {
    words[0] = 256;
    words[1] = 1;
    words[2] = 4;
    words[3] = 1024;
    for e in 0..1024 {
        let at = 4 + 3 * e;
        words[at] = (e / 4 + 1) as u32;
        words[at + 1] = (e % 4 + 1) as u32;
        words[at + 2] = 1;
    }
}

fn read_full(words: &[u32; 3078]) {
    read(words);
}

// The full circuit, then with a count too large, a count too small, and a value 0 in the last entry.
fn many() {
    let mut w = [0u32; 3078];
    full(&mut w);
    read_full(&w);
    w[3] = 1025;
    read_full(&w);
    w[3] = 1023;
    read_full(&w);
    w[3] = 1024;
    w[3075] = 0;
    read_full(&w);
}

pub fn examples() {
    heading(b"circuits");
    counts();
    entries();
    two_faults();
    lengths();
    many();
}
