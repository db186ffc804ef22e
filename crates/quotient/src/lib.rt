// The quotient that the box gives (RULES 4). The call asks nothing of its input; refused, it changes no word lent to it.
#![tactic(auto)]

ghost use Rattle.std.specs.Prelude.{◌≡◌, length};
ghost use Rattle.outcome.specs.Verdict.{outcome_of, Accepted};
ghost use Rattle.qap.specs.declared.Blinders.{Blinders};
ghost use Rattle.qap.specs.Polynomials.{IsQuotient};
ghost use Rattle.qap.specs.Refusals.{quotient_verdict};
ghost use Rattle.qap.specs.Calls.{QuotientCall};
ghost use Rattle.qap.specs.Setting.{standard};

use outcome::Refusal;
use qap::Blinders;

#[tactic(auto, using(outcome::proofs::Asked::asked, refusals::proofs::Ready::given, dividend::proofs::TargetWords::points), unfolding(qap::specs::Refusals::quotient_verdict))]
fn quotient_verdict(
    circuit: &[u32],
    values: &[u32],
    d: Blinders,
    size: usize,
) -> Result<(), Refusal>
    ensures { outcome_of result ≡ quotient_verdict standard circuit.now values.now d size }
{
    refusals::ready_verdict(circuit, values, d)?;
    refusals::length_verdict(size, circuit::counts::rows_of(circuit) + 1)?;
    refusals::rows_verdict(circuit, values)
}

// The target and the dividend, then its quotient.
#[tactic(auto, using(outcome::proofs::Asked::asked, slices::proofs::Rooms::cut, refusals::proofs::Ready::given), unfolding(qap::specs::Refusals::quotient_verdict))]
fn fill_quotient(circuit: &[u32], values: &[u32], d: Blinders, out: &mut [u32])
    requires { Accepted (quotient_verdict standard circuit.now values.now d (length out.old)) }
    ensures { IsQuotient standard circuit.now values.now d out.new }
{
    let m = circuit::counts::rows_of(circuit);
    let mut room = slices::room();
    let z = &mut room[..m + 1];
    let dividend = dividend::with_target(circuit, values, d, z);
    dividend::take_quotient(dividend, m, z, out);
}

// The quotient H' of the blinded polynomials, into rows + 1 words.
#[tactic(auto, using(outcome::proofs::Asked::asked))]
pub fn quotient(
    circuit: &[u32],
    values: &[u32],
    d: Blinders,
    out: &mut [u32],
) -> Result<(), Refusal>
    ensures { QuotientCall standard circuit.now values.now d out.old out.new (outcome_of result) }
{
    quotient_verdict(circuit, values, d, out.len())?;
    fill_quotient(circuit, values, d, out);
    Ok(())
}
