// The dividend A'B' − C' (RULES 4), kept whole: A' = A + d Z from the row sums of A, and likewise B' and C'. And its
// quotient by Z.
#![tactic(auto)]

ghost use Rattle.std.specs.Prelude.{[], ◌∷◌, ◌≡◌, ◌+◌, ◌<◌, length, drop, take, get_or};
ghost use Rattle.algebra.specs.Polynomial.{Words};
ghost use Rattle.algebra.specs.Points.{row_points};
ghost use Rattle.field.specs.Field.{p};
ghost use Rattle.circuit.specs.Circuit.{rows};
ghost use Rattle.circuit.specs.WellFormed.{Formed};
ghost use Rattle.assignment.specs.WellFormed.{AssignmentFormed};
ghost use Rattle.poly.specs.Division.{division};
ghost use Rattle.qap.specs.declared.Blinders.{Blinders};
ghost use Rattle.qap.specs.Polynomials.{target_of};
ghost use Rattle.qap.specs.Setting.{standard};
ghost use Rattle.dividend.specs.Blinded.{BlindedThrough};
ghost use Rattle.dividend.specs.Dividend.{dividend_of, quotient_of, BlindedWhole, IsDividend};
ghost use Rattle.dividend.specs.Dividend.{DividendGiven, Short, TargetAndRoom};

use qap::Blinders;

// The first m words hold the values; the last word makes room for the multiple of the target z.
fn blind(out: &mut [u32], m: usize, d: u32, z: &[u32])
    requires { TargetAndRoom p m z.now out.old × Words p (take m out.old) }
    ensures { BlindedThrough p (row_points m) (λ i. get_or out.old i 0) (d ∷ []) out.new }
{
    let inverses = field::table::inverses();
    out[m] = 0;
    poly::interpolation::interpolate(&mut out[..m], &inverses);
    poly::add_scaled(out, d, z);
}

// A', B' or C' of a matrix: its row sums over all columns, their list, and d times the target.
#[tactic(auto, using(slices::proofs::Rooms::cut))]
fn blinded_whole(
    circuit: &[u32],
    values: &[u32],
    matrix: usize,
    m: usize,
    d: u32,
    z: &[u32],
    out: &mut [u32],
)
    requires { DividendGiven p circuit.now values.now m z.now × (matrix < 3) × (length out.old ≡ m + 1) }
    ensures { BlindedWhole p circuit.now values.now matrix (d ∷ []) out.new }
{
    rows::whole_sums(circuit, matrix, values, &mut out[..m]);
    blind(out, m, d, z);
}

// A'B' − C' of three lists.
fn dividend_of(a: &[u32], b: &[u32], c: &[u32]) -> [u32; poly::PRODUCT]
    requires { Short a.now b.now c.now }
    ensures { result ≡ dividend_of p a.now b.now c.now }
{
    let mut difference = poly::product(a, b);
    poly::add_scaled(&mut difference, field::MINUS_ONE, c);
    difference
}

// A'B' − C' of a circuit, an assignment and blinders; z is the target.
#[tactic(auto, using(slices::proofs::Rooms::cut, circuit::proofs::Rows::few))]
pub fn dividend(
    circuit: &[u32],
    values: &[u32],
    d: Blinders,
    m: usize,
    z: &[u32],
) -> [u32; poly::PRODUCT]
    requires { DividendGiven p circuit.now values.now m z.now }
    ensures { IsDividend p circuit.now values.now d result }
{
    let end = m + 1;
    let mut room_a = slices::room();
    let mut room_b = slices::room();
    let mut room_c = slices::room();
    let a = &mut room_a[..end];
    let b = &mut room_b[..end];
    let c = &mut room_c[..end];
    blinded_whole(circuit, values, 0, m, d.first, z, a);
    blinded_whole(circuit, values, 1, m, d.second, z, b);
    blinded_whole(circuit, values, 2, m, d.third, z, c);
    dividend_of(a, b, c)
}

// The target into z, with one word more than there are rows, and the dividend beside it.
#[tactic(auto, using(circuit::proofs::Rows::few))]
pub fn with_target(
    circuit: &[u32],
    values: &[u32],
    d: Blinders,
    z: &mut [u32],
) -> [u32; poly::PRODUCT]
    requires { Formed p circuit.now × AssignmentFormed p circuit.now values.now × (length z.old ≡ rows circuit.now + 1) }
    ensures { (z.new ≡ target_of standard circuit.now) × IsDividend p circuit.now values.now d result }
{
    poly::target(z);
    dividend(circuit, values, d, z.len() - 1, z)
}

// Division by the list of which `low` is all but the leading 1: the quotient into `out`, the remainder stays in front.
fn divide_into(work: &mut [u32], low: &[u32], out: &mut [u32])
    requires { length work.old ≡ length low.now + length out.old }
    ensures { out.new ≡ drop (length low.now) (division p low.now (length out.old) work.old) }
{
    let m = low.len();
    poly::divide(work, low);
    slices::copy(&work[m..], out);
}

// The quotient of a dividend by the target z of 1..m, into m + 1 words.
#[tactic(auto, using(slices::proofs::Rooms::cut, crate::proofs::TargetWords::target_words))]
pub fn take_quotient(dividend: [u32; poly::PRODUCT], m: usize, z: &[u32], out: &mut [u32])
    requires { TargetAndRoom p m z.now out.old }
    ensures { out.new ≡ quotient_of p m dividend }
{
    let mut work = dividend;
    let end = m + m + 1;
    divide_into(&mut work[..end], &z[..m], out);
}
