// What a value at a point s costs when no polynomial is made (RULES 5), at the points 1..m, m at most 256:
// the basis weights, the basis values with the target's value, the sum of given values times basis values; and with the same weights
// a column (RULES 4) from values most of which are 0.
#![tactic(auto)]

ghost use Rattle.std.specs.Prelude.{◌≡◌, ◌*◌, ◌%◌, ◌≤◌, ◌<◌, length, get_or};
ghost use Rattle.algebra.specs.Congruence.{Inverse};
ghost use Rattle.algebra.specs.Polynomial.{Words};
ghost use Rattle.algebra.specs.Points.{row_points, Through};
ghost use Rattle.algebra.specs.Basis.{BasisWeights, descent};
ghost use Rattle.algebra.specs.Combination.{total};
ghost use Rattle.field.specs.Field.{p, InverseTable};
ghost use Rattle.basis.specs.Passes.{points_before, times_before, times_after};
ghost use Rattle.basis.specs.BasisAt.{BasisAt};
ghost use Rattle.basis.specs.Column.{Prepared, AddedFirst};

// The inverse of −1 · −2 · .. · −after: the weight of the first point, with as many points after it.
fn first_weight(after: usize, inverses: &[u32; 256]) -> u32
    requires { (after ≤ 256) × InverseTable p inverses.now }
    ensures { Inverse p (descent p after) result }
{
    let mut weight = 1;
    for inverse in &inverses[..after] {
        weight = field::times(weight, field::P - inverse);
    }
    weight
}

// The basis weights of the points 1..m, into m words. From a point to the next one the differences gain one point before,
// i + 1 away, and lose the last one after. Behind the last point the factor is P, and the word that it makes is not used.
pub fn weights(out: &mut [u32], inverses: &[u32; 256])
    requires { (0 < length out.old) × (length out.old ≤ 256) × InverseTable p inverses.now }
    ensures { BasisWeights p (row_points (length out.old)) out.new }
{
    let last = out.len() - 1;
    let mut weight = first_weight(last, inverses);
    for (i, word) in out.iter_mut().enumerate() {
        *word = weight;
        let next = field::times(weight, inverses[i]);
        weight = field::times(next, field::P - ((last - i) as u32));
    }
}

// Each word times all (s − x) of the points before its own. Gives back all (s − x): the target's value at s.
fn times_before(out: &mut [u32], s: u32) -> u32
    requires { length out.old ≤ 256 }
    ensures { (out.new ≡ times_before p s out.old) × (result ≡ points_before p s (length out.old) % p) }
{
    let mut before = 1;
    for (i, word) in out.iter_mut().enumerate() {
        *word = field::times(*word, before);
        before = field::times(before, field::minus(s, i as u32 + 1));
    }
    before
}

// Each word times all (s − x) of the points after its own.
fn times_after(out: &mut [u32], s: u32)
    requires { length out.old ≤ 256 }
    ensures { out.new ≡ times_after p s out.old }
{
    let mut after = 1;
    for i in (0..out.len()).rev() {
        out[i] = field::times(out[i], after);
        after = field::times(after, field::minus(s, i as u32 + 1));
    }
}

// The basis values of the points 1..m at s, into m words, and the target's value at s.
pub fn basis_values(out: &mut [u32], s: u32, inverses: &[u32; 256]) -> u32
    requires { (0 < length out.old) × (length out.old ≤ 256) × InverseTable p inverses.now }
    ensures { BasisAt p (length out.old) s out.new result }
{
    weights(out, inverses);
    let target = times_before(out, s);
    times_after(out, s);
    target
}

// The sum of the words of y times those of b, word by word.
pub fn dot(y: &[u32], b: &[u32]) -> u32
    requires { length y.now ≡ length b.now }
    ensures { result ≡ total (λ i. get_or y.now i 0 * get_or b.now i 0) (length y.now) % p }
{
    let mut sum = 0;
    // With an index for b: over `y.iter().zip(b)` the loop takes 5,038 instructions at 256 words in place of 3,908.
    for (i, &word) in y.iter().enumerate() {
        sum = field::add_scaled(sum, word, b[i]);
    }
    sum
}

// Adds to the words of a list of m words the list through the values y at 1..m: for each value that is not 0 its weight times
// the target divided by X − x, which is 0 at all points but x. That is 2 m operations for such a value, and none for a 0.
fn add_values(out: &mut [u32], y: &[u32], z: &[u32], weights: &[u32])
    requires { (length y.now ≡ length out.old) × Words p out.old × Prepared p (length out.old) z.now weights.now }
    ensures { AddedFirst p (row_points (length y.now)) (λ i. get_or y.now i 0) (length y.now)
        out.old out.new }
{
    for (i, &here) in y.iter().enumerate() {
        if here != 0 {
            let weight = weights[i];
            poly::add_divided(out, field::times(here, weight), z, i as u32 + 1);
        }
    }
}

// The list of m words that takes the values y at the points 1..m, where z is the target of these points and weights their
// basis weights. What out held before does not count.
pub fn column_through(out: &mut [u32], y: &[u32], z: &[u32], weights: &[u32])
    requires { (length y.now ≡ length out.old) × Prepared p (length out.old) z.now weights.now }
    ensures { Through p (row_points (length y.now)) (λ i. get_or y.now i 0) out.new }
{
    slices::clear(out);
    add_values(out, y, z, weights);
}
