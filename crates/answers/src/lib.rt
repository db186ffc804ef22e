// The four answers to a query (RULES 5). The call asks nothing of its input.
#![tactic(auto)]

ghost use Rattle.std.specs.Prelude.{◌≡◌};
ghost use Rattle.outcome.specs.Verdict.{outcome_of, Accepted};
ghost use Rattle.field.specs.Field.{p};
ghost use Rattle.qap.specs.declared.Blinders.{Blinders};
ghost use Rattle.qap.specs.Answers.{IsAnswers};
ghost use Rattle.qap.specs.Refusals.{ready_verdict, point_verdict};
ghost use Rattle.qap.specs.Calls.{AnswersCall};
ghost use Rattle.qap.specs.Setting.{standard};
ghost use Rattle.answers.specs.RowsAnswered.{answers_of, AnswersGiven, RowsAnswered};

use outcome::Refusal;
use qap::{Blinders, FourAnswers};

// Private parts for the first three; for the fourth A'(s), B'(s), C'(s) from the row sums over all columns.
#[tactic(auto, using(outcome::proofs::Asked::asked, slices::proofs::Rooms::cut, refusals::proofs::Ready::given, crate::proofs::SumsCount::sums_count), unfolding(qap::specs::Refusals::answers_verdict))]
fn four_answers(
    circuit: &[u32],
    values: &[u32],
    d: Blinders,
    s: u32,
    sums_a: &[u32],
    sums_b: &[u32],
    sums_c: &[u32],
) -> FourAnswers
    requires { AnswersGiven p circuit.now values.now d s sums_a.now sums_b.now sums_c.now }
    ensures { IsAnswers standard circuit.now values.now d s result }
{
    let m = sums_a.len();
    let inverses = field::table::inverses();
    let mut room = slices::room();
    let basis = &mut room[..m];
    let z = basis::basis_values(basis, s, &inverses);
    let private = evaluation::private_parts(circuit, values, d, z, basis);
    let whole = evaluation::whole_values(sums_a, sums_b, sums_c, d, z, basis);
    FourAnswers {
        first: private.first,
        second: private.second,
        third: private.third,
        fourth: evaluation::quotient_value(whole, z),
    }
}

// What the call gives once the checks before 10 have passed. The row sums over all columns serve 10 and the fourth answer.
#[tactic(auto, using(slices::proofs::Rooms::cut, refusals::proofs::Ready::given))]
pub fn answer_rows(
    circuit: &[u32],
    values: &[u32],
    d: Blinders,
    s: u32,
) -> Result<FourAnswers, Refusal>
    requires { Accepted (ready_verdict standard circuit.now values.now d) × Accepted (point_verdict standard circuit.now s) }
    ensures { RowsAnswered p circuit.now values.now d s (outcome_of result) (answers_of result) }
{
    let m = circuit::counts::rows_of(circuit);
    let mut room_a = slices::room();
    let mut room_b = slices::room();
    let mut room_c = slices::room();
    let sums_a = &mut room_a[..m];
    let sums_b = &mut room_b[..m];
    let sums_c = &mut room_c[..m];
    rows::rows_verdict(circuit, values, sums_a, sums_b, sums_c)?;
    Ok(four_answers(circuit, values, d, s, sums_a, sums_b, sums_c))
}

// The four answers as a host reads them: all 0 where the call refuses (RULES 6).
pub fn told_answers(found: Result<FourAnswers, Refusal>) -> FourAnswers
    ensures { result ≡ answers_of found }
{
    match found {
        Ok(r) => r,
        Err(_) => FourAnswers {
            first: 0,
            second: 0,
            third: 0,
            fourth: 0,
        },
    }
}

// The four answers at s.
#[tactic(auto, using(outcome::proofs::Asked::asked, refusals::proofs::Ready::given))]
pub fn answers(circuit: &[u32], values: &[u32], d: Blinders, s: u32) -> Result<FourAnswers, Refusal>
    ensures { AnswersCall standard circuit.now values.now d s (outcome_of result) (answers_of result) }
{
    refusals::ready_verdict(circuit, values, d)?;
    refusals::point_verdict(circuit, s)?;
    answer_rows(circuit, values, d, s)
}
