// The division check (RULES 5). It asks nothing of its input; 13 is an equality that is false.
#![tactic(auto)]

ghost use Rattle.std.specs.Prelude.{◌≡◌, length};
ghost use Rattle.outcome.specs.Verdict.{outcome_of, Accepted};
ghost use Rattle.qap.specs.declared.Blinders.{Blinders};
ghost use Rattle.qap.specs.Answers.{CandidateDivides};
ghost use Rattle.qap.specs.Refusals.{check_division_verdict};
ghost use Rattle.qap.specs.Calls.{CheckDivisionCall};
ghost use Rattle.refusals.specs.Decides.{Decides};
ghost use Rattle.qap.specs.Setting.{standard};

use outcome::Refusal;
use qap::Blinders;

#[tactic(auto, using(outcome::proofs::Asked::asked, refusals::proofs::Ready::given, dividend::proofs::TargetWords::points), unfolding(qap::specs::Refusals::check_division_verdict))]
fn check_division_verdict(
    circuit: &[u32],
    values: &[u32],
    d: Blinders,
    candidate: &[u32],
) -> Result<(), Refusal>
    ensures { outcome_of result ≡ check_division_verdict standard circuit.now values.now d candidate.now }
{
    refusals::ready_verdict(circuit, values, d)?;
    assignment::field_words(candidate).map_err(|i| Refusal::Given(3 + i))?;
    let m = circuit::counts::rows_of(circuit);
    refusals::length_verdict(candidate.len(), m + 1)
}

// The division check's equality: the words of A'B' − C' are those of Z times the candidate.
#[tactic(auto, using(outcome::proofs::Asked::asked, slices::proofs::Rooms::cut, refusals::proofs::Ready::given), unfolding(qap::specs::Refusals::check_division_verdict))]
fn candidate_divides(circuit: &[u32], values: &[u32], d: Blinders, candidate: &[u32]) -> bool
    requires { Accepted (check_division_verdict standard circuit.now values.now d candidate.now) }
    ensures { Decides (CandidateDivides standard circuit.now values.now d candidate.now) result }
{
    let m = circuit::counts::rows_of(circuit);
    let mut room = slices::room();
    let z = &mut room[..m + 1];
    let left = dividend::with_target(circuit, values, d, z);
    let right = poly::product(z, candidate);
    left == right
}

// A candidate for the quotient of the blinded polynomials.
#[tactic(auto, using(outcome::proofs::Asked::asked))]
pub fn check_division(
    circuit: &[u32],
    values: &[u32],
    d: Blinders,
    candidate: &[u32],
) -> Result<(), Refusal>
    ensures { CheckDivisionCall standard circuit.now values.now d candidate.now (outcome_of result) }
{
    check_division_verdict(circuit, values, d, candidate)?;
    refusals::judged(candidate_divides(circuit, values, d, candidate))
}
