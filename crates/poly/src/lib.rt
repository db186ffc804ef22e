// Polynomial loops on slices (RULES 4): a list of field words, power 0 first, lies in a slice.
// Each kernel has one loop, and its contract names every word that the lent slices hold at the end.
#![tactic(auto)]

ghost use Rattle.std.specs.Prelude.{◌≡◌, ◌+◌, ◌-◌, ◌%◌, ◌≤◌, ◌<◌, length};
ghost use Rattle.algebra.specs.Polynomial.{value, divided, product, reduced};
ghost use Rattle.algebra.specs.Points.{consecutive, row_points, target};
ghost use Rattle.field.specs.Field.{p};
ghost use Rattle.poly.specs.AddScaled.{scaled};
ghost use Rattle.poly.specs.Factor.{times_factor};
ghost use Rattle.poly.specs.Product.{add_product, padded};
ghost use Rattle.poly.specs.Division.{division};

pub mod interpolation;

// Words of the work room of A'B' (RULES 4).
pub const PRODUCT: usize = 513;

// The value at s, from the top word down with one running word. Powers begin with 0.
pub fn value_at(f: &[u32], s: u32) -> u32
    ensures { result ≡ value f.now s % p }
{
    f.iter()
        .rev()
        .fold(0, |sum, word| field::add_scaled(*word, s, sum))
}

// dst += k · src. A caller lends the part of its words at which src is to begin, `&mut dst[at..]`.
#[tactic(auto, unfolding(crate::specs::AddScaled::scaled))]
pub fn add_scaled(dst: &mut [u32], k: u32, src: &[u32])
    requires { length src.now ≤ length dst.old }
    ensures { dst.new ≡ scaled p k src.now dst.old }
{
    // By index: of `dst.iter_mut().zip(src)` a proof knows that dst keeps its length, and none of its words.
    for (i, word) in src.iter().enumerate() {
        dst[i] = field::add_scaled(dst[i], k, *word);
    }
}

// The first word plus (X − x) times the other words: with a first word 0, times (X − x) in place.
#[tactic(auto, unfolding(crate::specs::Factor::times_factor))]
pub fn times_factor(f: &mut [u32], x: u32)
    ensures { f.new ≡ times_factor p x f.old }
{
    let k = field::minus(0, x);
    // With `for i in 1..f.len()` this takes 4,255 x86-64 instructions for 257 words, and 3,999 as it stands.
    for i in 0..f.len().saturating_sub(1) {
        f[i] = field::add_scaled(f[i], k, f[i + 1]);
    }
}

// The target of the points first, first + 1, .., one fewer than z has words; what z held before does not count.
// The last point is multiplied in first: the target of the points done lies at the end of z.
#[tactic(auto, unfolding(algebra::specs::Points::target, algebra::specs::Points::consecutive))]
pub fn target_from(z: &mut [u32], first: u32)
    requires { (0 < length z.old) × (first + length z.old ≤ 4294967296) }
    ensures { z.new ≡ target p (consecutive first (length z.old - 1)) }
{
    let last = z.len() - 1;
    z[last] = 1;
    for i in (0..last).rev() {
        z[i] = 0;
        times_factor(&mut z[i..], first + i as u32);
    }
}

// The target of 1..m, into m + 1 words.
pub fn target(z: &mut [u32])
    requires { (0 < length z.old) × (length z.old < 4294967296) }
    ensures { z.new ≡ target p (row_points (length z.old - 1)) }
{
    target_from(z, 1);
}

// room += f · g.
#[tactic(auto, unfolding(crate::specs::Product::add_product))]
pub fn add_product(room: &mut [u32], f: &[u32], g: &[u32])
    requires { length f.now + length g.now ≤ length room.old + 1 }
    ensures { room.new ≡ add_product p f.now g.now room.old }
{
    for (i, word) in f.iter().enumerate() {
        add_scaled(&mut room[i..], *word, g);
    }
}

// The whole product of two lists of up to 257 words, in the work room of 513 words.
pub fn product(f: &[u32], g: &[u32]) -> [u32; PRODUCT]
    requires { (length f.now ≤ 257) × (length g.now ≤ 257) }
    ensures { result ≡ padded 513 (reduced p (product f.now g.now)) }
{
    let mut room = [0; PRODUCT];
    add_product(&mut room, f, g);
    room
}

// Division by a monic list, of which `low` is all but the leading 1: the room ends as as many remainder words as
// `low` has, then the quotient words.
#[tactic(auto, unfolding(crate::specs::Division::division))]
pub fn divide(room: &mut [u32], low: &[u32])
    requires { length low.now ≤ length room.old }
    ensures { room.new ≡ division p low.now (length room.old - length low.now) room.old }
{
    for i in (0..room.len() - low.len()).rev() {
        let k = field::minus(0, room[i + low.len()]);
        add_scaled(&mut room[i..], k, low);
    }
}

// column += k · (z divided by X − x), with one running word from the top down: the next word of that quotient.
pub fn add_divided(column: &mut [u32], k: u32, z: &[u32], x: u32)
    requires { length z.now ≡ length column.old + 1 }
    ensures { column.new ≡ scaled p k (divided x z.now) column.old }
{
    let mut word = 0;
    for i in (0..column.len()).rev() {
        word = field::add_scaled(z[i + 1], x, word);
        column[i] = field::add_scaled(column[i], k, word);
    }
}
