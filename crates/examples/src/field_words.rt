// The field's operations at its borders, and inverses (RULES 1).
use crate::printing::{heading, line};
use crate::samples::LARGEST;
use field::{MINUS_ONE, P};

// Minus one; and the largest words multiplied and added.
fn ends() {
    line(&[
        field::minus(0, 1),
        field::add_scaled(LARGEST, LARGEST, LARGEST),
    ]);
}

// a, b, a + b, a − b, a b.
fn pair(a: u32, b: u32) {
    line(&[
        a,
        b,
        field::plus(a, b),
        field::minus(a, b),
        field::times(a, b),
    ]);
}

fn pairs(a: u32) {
    pair(a, 0);
    pair(a, 1);
    pair(a, MINUS_ONE);
    pair(a, P);
    pair(a, LARGEST);
}

// a, its inverse, their product.
fn inverted(a: u32) {
    let r = field::inverse(a);
    line(&[a, r, field::times(a, r)]);
}

// The first, second and last entry of the table of inverses.
fn entries() {
    let t = field::table::inverses();
    line(&[t[0], t[1], t[255]]);
}

pub fn examples() {
    heading(b"field words");
    ends();
    pairs(0);
    pairs(1);
    pairs(MINUS_ONE);
    pairs(P);
    pairs(LARGEST);
    inverted(0);
    inverted(1);
    inverted(2);
    inverted(256);
    inverted(MINUS_ONE);
    inverted(LARGEST);
    entries();
}
