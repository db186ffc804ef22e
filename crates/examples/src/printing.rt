// Headings, and lines of words in decimals with a space between. By crate io, which needs no runtime handed down through every example,
// and by which a write that fails leaves the exit status as it is.
use outcome::{Outcome, Refusal};

// The descriptor of standard output.
const STDOUT: i32 = 1;

fn number(n: u32) {
    io::print_decimal(STDOUT, u64::from(n));
}

fn space() {
    io::write_all(STDOUT, b" ");
}

fn line_end() {
    io::write_all(STDOUT, b"\n");
}

pub fn heading(name: &[u8]) {
    io::write_all(STDOUT, name);
    line_end();
}

pub fn number_line(n: u32) {
    number(n);
    line_end();
}

pub fn line(words: &[u32]) {
    for (i, word) in words.iter().enumerate() {
        if 0 < i {
            space();
        }
        number(*word);
    }
    line_end();
}

fn number_and_place(o: Outcome) {
    number(o.number);
    space();
    io::print_decimal(STDOUT, o.place as u64);
}

pub fn outcome_line(found: Result<(), Refusal>) {
    number_and_place(found.into());
    line_end();
}

// What a call said, and the words that it wrote or gave back.
pub fn call_line(found: Result<(), Refusal>, words: &[u32]) {
    number_and_place(found.into());
    if 0 < words.len() {
        space();
    }
    line(words);
}
