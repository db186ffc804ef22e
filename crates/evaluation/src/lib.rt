// Values at a point without a polynomial (RULES 5): a part of a matrix as row sums times basis values, three
// parts with their blinders, and the quotient's value.
#![tactic(auto)]

ghost use Rattle.std.specs.Prelude.{◌≡◌, length};
ghost use Rattle.algebra.specs.Congruence.{◌≈⟨◌⟩◌};
ghost use Rattle.field.specs.Field.{p};
ghost use Rattle.circuit.specs.Circuit.{rows};
ghost use Rattle.circuit.specs.WellFormed.{Formed};
ghost use Rattle.assignment.specs.WellFormed.{AssignmentFormed};
ghost use Rattle.qap.specs.declared.Blinders.{Blinders};
ghost use Rattle.evaluation.specs.Values.{PartGiven, PartValue, WithBlinders, PrivateParts, WholeValues, QuotientValue};

use qap::Blinders;

// Of A, B and C at a point.
#[derive(Clone, Copy)]
pub struct ThreeValues {
    pub first: u32,
    pub second: u32,
    pub third: u32,
}

impl ThreeValues {
    // Each with its blinder's multiple of z added.
    fn blinded(self, d: Blinders, z: u32) -> ThreeValues
        ensures { WithBlinders p self d z result }
    {
        ThreeValues {
            first: field::add_scaled(self.first, d.first, z),
            second: field::add_scaled(self.second, d.second, z),
            third: field::add_scaled(self.third, d.third, z),
        }
    }
}

// The part over the columns after `from` up to `to`, at the point that the basis values are of.
#[tactic(auto, using(slices::proofs::Rooms::cut, circuit::proofs::Rows::few))]
pub fn part_value(
    circuit: &[u32],
    matrix: usize,
    values: &[u32],
    from: usize,
    to: usize,
    basis: &[u32],
) -> u32
    requires { PartGiven p circuit.now values.now matrix from to basis.now }
    ensures { PartValue p circuit.now values.now matrix from to basis.now result }
{
    let m = basis.len();
    let mut room = slices::room();
    let sums = &mut room[..m];
    rows::row_sums(circuit, matrix, values, from, to, sums);
    basis::dot(sums, basis)
}

// The parts of A, B, C over the private columns, with d1 z, d2 z, d3 z added; z is the target's value.
pub fn private_parts(
    circuit: &[u32],
    values: &[u32],
    d: Blinders,
    z: u32,
    basis: &[u32],
) -> ThreeValues
    requires { Formed p circuit.now × AssignmentFormed p circuit.now values.now × (length basis.now ≡ rows circuit.now) }
    ensures { PrivateParts p circuit.now values.now d z basis.now result }
{
    let q = circuit::counts::publics_of(circuit);
    let n = circuit::counts::columns_of(circuit);
    let parts = ThreeValues {
        first: part_value(circuit, 0, values, q, n, basis),
        second: part_value(circuit, 1, values, q, n, basis),
        third: part_value(circuit, 2, values, q, n, basis),
    };
    parts.blinded(d, z)
}

// A'(s), B'(s), C'(s) from the row sums of A, B, C over all columns; z is the target's value.
pub fn whole_values(
    sums_a: &[u32],
    sums_b: &[u32],
    sums_c: &[u32],
    d: Blinders,
    z: u32,
    basis: &[u32],
) -> ThreeValues
    requires { (length sums_a.now ≡ length basis.now) × (length sums_b.now ≡ length basis.now) × (length sums_c.now ≡ length basis.now) }
    ensures { WholeValues p sums_a.now sums_b.now sums_c.now d z basis.now result }
{
    let whole = ThreeValues {
        first: basis::dot(sums_a, basis),
        second: basis::dot(sums_b, basis),
        third: basis::dot(sums_c, basis),
    };
    whole.blinded(d, z)
}

// (u v − t) / z
pub fn quotient_value(three: ThreeValues, z: u32) -> u32
    requires { z ≈⟨ p ⟩ 0 → ⊥ }
    ensures { QuotientValue p three z result }
{
    field::times(
        field::minus(field::times(three.first, three.second), three.third),
        field::inverse(z),
    )
}
