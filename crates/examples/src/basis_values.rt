// The basis of 1, 2, 5 and 256 points: its weights, its values at a point, and columns from their values (RULES 4 and 5).
ghost use Rattle.std.specs.Prelude.{◌≡◌, ◌+◌, ◌<◌, ◌≤◌, length};

use crate::printing::{heading, line, number_line};
use crate::samples::LARGEST;
use field::MINUS_ONE;

fn weights(out: &mut [u32])
    requires { (0 < length out.old) × (length out.old ≤ 256) }
{
    let inverses = field::table::inverses();
    basis::weights(out, &inverses);
    line(out);
}

fn weights_of_one() {
    weights(&mut [0]);
}

fn weights_of_two() {
    weights(&mut [0, 0]);
}

fn weights_of_five() {
    weights(&mut [0, 0, 0, 0, 0]);
}

// The first and the last weight of 256 points.
fn long_weights() {
    let inverses = field::table::inverses();
    let mut out = [0u32; 256];
    basis::weights(&mut out, &inverses);
    line(&[out[0], out[255]]);
}

// The basis values at s, and the target's.
fn values(out: &mut [u32], s: u32)
    requires { (0 < length out.old) × (length out.old ≤ 256) }
{
    let inverses = field::table::inverses();
    let target = basis::basis_values(out, s, &inverses);
    line(out);
    number_line(target);
}

fn values_of_two(s: u32) {
    values(&mut [0, 0], s);
}

fn values_of_five(s: u32) {
    values(&mut [0, 0, 0, 0, 0], s);
}

// The value at s of line b's column, which is 1 at 1 and 0 at 2.
fn column_value(s: u32) {
    let inverses = field::table::inverses();
    let mut room = [0u32; 2];
    basis::basis_values(&mut room, s, &inverses);
    number_line(basis::dot(&[1, 0], &room));
}

// The column through y, with room for the target and the weights.
fn column(out: &mut [u32], y: &[u32], z: &mut [u32], room: &mut [u32])
    requires { (0 < length out.old) × (length out.old ≤ 256) × (length y.now ≡ length out.old) × (length z.old ≡ length out.old + 1) ×
        (length room.old ≡ length out.old) }
{
    let inverses = field::table::inverses();
    poly::target(z);
    basis::weights(room, &inverses);
    basis::column_through(out, y, z, room);
    line(out);
}

fn column_of_two(first: u32, second: u32) {
    column(&mut [9, 9], &[first, second], &mut [0, 0, 0], &mut [0, 0]);
}

fn column_of_five() {
    let y = [0, 0, 7, 0, LARGEST];
    column(
        &mut [9, 9, 9, 9, 9],
        &y,
        &mut [0, 0, 0, 0, 0, 0],
        &mut [0, 0, 0, 0, 0],
    );
}

pub fn examples() {
    heading(b"basis values");
    weights_of_one();
    weights_of_two();
    values_of_two(0);
    values_of_two(3);
    column_value(3);
    column_value(0);
    column_of_two(1, 0);
    column_of_two(0, 2);
    weights_of_five();
    values_of_five(0);
    values_of_five(MINUS_ONE);
    values_of_five(4);
    column_of_five();
    long_weights();
}
