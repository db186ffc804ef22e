// The tablet's answer check (RULES 5). It asks nothing of its input; 13 is an equality that is false.
#![tactic(auto)]

ghost use Rattle.std.specs.Prelude.{◌≡◌, ◌+◌, ◌*◌};
ghost use Rattle.outcome.specs.Verdict.{outcome_of, Accepted};
ghost use Rattle.algebra.specs.Congruence.{◌≈⟨◌⟩◌};
ghost use Rattle.field.specs.Field.{p};
ghost use Rattle.qap.specs.declared.FourAnswers.{FourAnswers};
ghost use Rattle.qap.specs.Answers.{AnswersAgree};
ghost use Rattle.qap.specs.Refusals.{check_answers_verdict};
ghost use Rattle.qap.specs.Calls.{CheckAnswersCall};
ghost use Rattle.refusals.specs.Decides.{Decides};
ghost use Rattle.qap.specs.Setting.{standard};

use outcome::Refusal;
use qap::FourAnswers;

#[tactic(auto, using(outcome::proofs::Asked::asked, circuit::proofs::Formed::formed_behind), unfolding(qap::specs::Refusals::check_answers_verdict))]
fn check_answers_verdict(
    circuit: &[u32],
    section: &[u32],
    s: u32,
    r: FourAnswers,
) -> Result<(), Refusal>
    ensures { outcome_of result ≡ check_answers_verdict standard circuit.now section.now s r }
{
    reader::circuit_verdict(circuit)?;
    assignment::public_words_verdict(circuit, section)?;
    refusals::answers_verdict(r)?;
    refusals::point_verdict(circuit, s)
}

// u v = t + z times the fourth answer, where the public parts are added to the first three, giving u, v, t.
fn words_agree(r: FourAnswers, part_a: u32, part_b: u32, part_c: u32, z: u32) -> bool
    ensures { Decides ((r.first + part_a) * (r.second + part_b) ≈⟨ p ⟩ (r.third + part_c) + z * r.fourth) result }
{
    let u = field::plus(r.first, part_a);
    let v = field::plus(r.second, part_b);
    let t = field::plus(r.third, part_c);
    field::times(u, v) == field::add_scaled(t, z, r.fourth)
}

// The answer check's equality at s.
#[tactic(auto, using(slices::proofs::Rooms::cut, crate::proofs::AnswerChecks::given))]
fn answers_agree(circuit: &[u32], section: &[u32], s: u32, r: FourAnswers) -> bool
    requires { Accepted (check_answers_verdict standard circuit.now section.now s r) }
    ensures { Decides (AnswersAgree standard circuit.now section.now s r) result }
{
    let m = circuit::counts::rows_of(circuit);
    let q = circuit::counts::publics_of(circuit);
    let inverses = field::table::inverses();
    let mut room = slices::room();
    let basis = &mut room[..m];
    let z = basis::basis_values(basis, s, &inverses);
    let part_a = evaluation::part_value(circuit, 0, section, 0, q, basis);
    let part_b = evaluation::part_value(circuit, 1, section, 0, q, basis);
    let part_c = evaluation::part_value(circuit, 2, section, 0, q, basis);
    words_agree(r, part_a, part_b, part_c, z)
}

// Four answers to the point s, beside a public section.
#[tactic(auto, using(outcome::proofs::Asked::asked))]
pub fn check_answers(
    circuit: &[u32],
    section: &[u32],
    s: u32,
    r: FourAnswers,
) -> Result<(), Refusal>
    ensures { CheckAnswersCall standard circuit.now section.now s r (outcome_of result) }
{
    check_answers_verdict(circuit, section, s, r)?;
    refusals::judged(answers_agree(circuit, section, s, r))
}
