// Interpolation in place (RULES 4): the list through given values at the points 1..m.
// Newton's divided differences, then Newton's form to powers: m² / 2 steps each.
ghost use Rattle.std.specs.Prelude.{◌≡◌, ◌+◌, ◌≤◌, ◌<◌, length};
ghost use Rattle.algebra.specs.Polynomial.{Words};
ghost use Rattle.field.specs.Field.{p, InverseTable};
ghost use Rattle.algebra.specs.Points.{consecutive};
ghost use Rattle.poly.specs.Interpolation.{differences, newton, powers, interpolated};

// (value − y) times the inverse of 1, of 2, .., for the values after y.
#[tactic(auto, unfolding(crate::specs::Interpolation::differences))]
fn subtract_and_divide(v: &mut [u32], y: u32, inverses: &[u32; 256])
    requires { (length v.old < 256) × (y < p) × Words p v.old × InverseTable p inverses.now }
    ensures { v.new ≡ differences p inverses.now y v.old }
{
    let minus_y = field::P - y;
    for (i, value) in v.iter_mut().enumerate() {
        *value = field::times(*value + minus_y, inverses[i]);
    }
}

// Newton's coefficients of the values.
#[tactic(auto, unfolding(crate::specs::Interpolation::newton))]
fn divide_differences(v: &mut [u32], inverses: &[u32; 256])
    requires { (length v.old ≤ 256) × Words p v.old × InverseTable p inverses.now }
    ensures { v.new ≡ newton p inverses.now (length v.old) v.old }
{
    for i in 0..v.len() {
        let y = v[i];
        subtract_and_divide(&mut v[i + 1..], y, inverses);
    }
}

// Newton's coefficients at the points first, first + 1, .. to powers.
#[tactic(auto, unfolding(crate::specs::Interpolation::powers, algebra::specs::Points::consecutive))]
fn expand_powers(v: &mut [u32], first: u32)
    requires { first + length v.old ≤ 4294967296 }
    ensures { v.new ≡ powers p (consecutive first (length v.old)) v.old }
{
    for i in (0..v.len()).rev() {
        crate::times_factor(&mut v[i..], first + i as u32);
    }
}

// The list through the values v at 1, 2, .., in their place.
pub fn interpolate(v: &mut [u32], inverses: &[u32; 256])
    requires { (length v.old ≤ 256) × Words p v.old × InverseTable p inverses.now }
    ensures { v.new ≡ interpolated p inverses.now 1 v.old }
{
    divide_differences(v, inverses);
    expand_powers(v, 1);
}
