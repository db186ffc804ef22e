// The polynomial loops, up to their longest lists (RULES 4).
ghost use Rattle.std.specs.Prelude.{◌<◌, ◌≤◌, length};
ghost use Rattle.algebra.specs.Polynomial.{Words};
ghost use Rattle.field.specs.Field.{p};

use crate::printing::{heading, line};
use field::MINUS_ONE;

const MINUS_THREE: u32 = field::P - 3;

// 1 + 2 X + 3 X² at 2 and at 0.
fn values() {
    let f = [1u32, 2, 3];
    line(&[poly::value_at(&f, 2), poly::value_at(&f, 0)]);
}

// Minus 1 times two words, added from word 1 on.
fn sum_from_word_one(f: &mut [u32])
    requires { 3 ≤ length f.old }
{
    poly::add_scaled(&mut f[1..], MINUS_ONE, &[1, 2]);
    line(f);
}

// An array is cut in a function that it is lent to.
fn sums() {
    let mut f = [1u32, 1, 1, 1];
    sum_from_word_one(&mut f);
}

// The target of the points 1 and 2, and that of 5 and 6.
fn targets() {
    let mut z = [9u32; 3];
    poly::target(&mut z);
    line(&z);
    poly::target_from(&mut z, 5);
    line(&z);
}

// The first and last word, and the values at a, 256 and 257.
fn ends(f: &[u32], a: u32)
    requires { 0 < length f.now }
{
    let last = f.len() - 1;
    line(&[
        f[0],
        f[last],
        poly::value_at(f, a),
        poly::value_at(f, 256),
        poly::value_at(f, 257),
    ]);
}

// The target of 256 points.
fn long_target() {
    let mut z = [0u32; 257];
    poly::target(&mut z);
    ends(&z, 0);
}

// The column through the values.
fn column(values: &mut [u32])
    requires { (length values.old ≤ 256) × Words p values.old }
{
    let inverses = field::table::inverses();
    poly::interpolation::interpolate(values, &inverses);
    line(values);
}

// The columns of lines b and c of RULES 9.
fn columns() {
    column(&mut [1, 0]);
    column(&mut [0, 2]);
}

// Line b's column once more: its one value that is not 0, at 1, times Z / (X − 1).
fn sparse_column() {
    let mut b = [0u32, 0];
    poly::add_divided(&mut b, MINUS_ONE, &[2, MINUS_THREE, 1], 1);
    line(&b);
}

// The list that is 1 at 256 and 0 at 1..255.
fn long_column() {
    let inverses = field::table::inverses();
    let mut v = [0u32; 256];
    v[255] = 1;
    poly::interpolation::interpolate(&mut v, &inverses);
    ends(&v, 255);
}

// 5 + 7 X + Z (8 + 8 X + 2 X²), divided by Z: the remainder, then the quotient.
fn division() {
    let mut room = [0u32; 5];
    poly::add_product(&mut room, &[2, MINUS_THREE, 1], &[8, 8, 2]);
    poly::add_scaled(&mut room, 1, &[5, 7]);
    poly::divide(&mut room, &[2, MINUS_THREE]);
    line(&room);
}

// 257 words times 257 words: some of the 513, and the value at 3.
fn whole_product() {
    let f = [2u32; 257];
    let g = [MINUS_ONE; 257];
    let room = poly::product(&f, &g);
    line(&[
        room[0],
        room[1],
        room[256],
        room[511],
        room[512],
        poly::value_at(&room, 3),
    ]);
}

pub fn examples() {
    heading(b"polynomials");
    values();
    sums();
    targets();
    long_target();
    columns();
    sparse_column();
    long_column();
    division();
    whole_product();
}
