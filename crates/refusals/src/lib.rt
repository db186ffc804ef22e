// The refusals that calls share (RULES 6): 8, 10, 11, 12 and 13, each by its own definition.
#![tactic(auto)]

ghost use Rattle.std.specs.Prelude.{◌≡◌};
ghost use Rattle.outcome.specs.Verdict;
ghost use Rattle.outcome.specs.Verdict.{outcome_of};
ghost use Rattle.circuit.specs.WellFormed.{Formed};
ghost use Rattle.assignment.specs.Assignment.{words_verdict};
ghost use Rattle.assignment.specs.WellFormed.{AssignmentFormed};
ghost use Rattle.rows.specs.Rows.{rows_verdict};
ghost use Rattle.qap.specs.declared.Blinders.{Blinders};
ghost use Rattle.qap.specs.declared.FourAnswers.{FourAnswers};
ghost use Rattle.qap.specs.Polynomials.{blinder_words};
ghost use Rattle.qap.specs.Refusals.{length_verdict, point_verdict, answer_words, ready_verdict};
ghost use Rattle.field.specs.Field.{p};
ghost use Rattle.qap.specs.Setting.{standard};

use assignment::field_words;
use outcome::{Refusal, require, within};
use qap::{Blinders, FourAnswers};

// 8: the exact length, or the length wanted.
#[tactic(auto, using(outcome::proofs::Asked::asked), unfolding(qap::specs::Refusals::length_verdict))]
pub fn length_verdict(given: usize, wanted: usize) -> Result<(), Refusal>
    ensures { outcome_of result ≡ length_verdict given wanted }
{
    require(given == wanted, Refusal::Length(wanted))
}

// 11: a field word on no row.
pub fn point_verdict(circuit: &[u32], s: u32) -> Result<(), Refusal>
    requires { Formed p circuit.now }
    ensures { outcome_of result ≡ point_verdict standard circuit.now s }
{
    let m = circuit::counts::rows_of(circuit) as u32;
    require(s <= field::MINUS_ONE, Refusal::Point)?;
    require(!within(1, s, m), Refusal::Point)
}

// 12 over the three blinders.
pub fn blinders_verdict(d: Blinders) -> Result<(), Refusal>
    ensures { outcome_of result ≡ words_verdict p 12 0 (blinder_words d) }
{
    let words = [d.first, d.second, d.third];
    field_words(&words).map_err(Refusal::Given)
}

// Circuit, assignment and blinders, in the rules' order.
#[tactic(auto, using(outcome::proofs::Asked::asked, circuit::proofs::Formed::formed_behind), unfolding(qap::specs::Refusals::ready_verdict))]
pub fn ready_verdict(circuit: &[u32], values: &[u32], d: Blinders) -> Result<(), Refusal>
    ensures { outcome_of result ≡ ready_verdict standard circuit.now values.now d }
{
    reader::circuit_verdict(circuit)?;
    assignment::assignment_words_verdict(circuit, values)?;
    blinders_verdict(d)
}

// 12 over the four answers.
pub fn answers_verdict(r: FourAnswers) -> Result<(), Refusal>
    ensures { outcome_of result ≡ words_verdict p 12 0 (answer_words r) }
{
    let words = [r.first, r.second, r.third, r.fourth];
    field_words(&words).map_err(Refusal::Given)
}

// 10 at the lowest failing row.
#[tactic(auto, using(slices::proofs::Rooms::cut, circuit::proofs::Rows::few))]
pub fn rows_verdict(circuit: &[u32], values: &[u32]) -> Result<(), Refusal>
    requires { Formed p circuit.now × AssignmentFormed p circuit.now values.now }
    ensures { outcome_of result ≡ rows_verdict p circuit.now values.now }
{
    let m = circuit::counts::rows_of(circuit);
    let mut room_a = slices::room();
    let mut room_b = slices::room();
    let mut room_c = slices::room();
    let a = &mut room_a[..m];
    let b = &mut room_b[..m];
    let c = &mut room_c[..m];
    rows::rows_verdict(circuit, values, a, b, c)
}

// 13: a check's equality is false.
#[tactic(auto, using(outcome::proofs::Asked::asked))]
pub fn judged(equal: bool) -> Result<(), Refusal>
    ensures { outcome_of result ≡ Verdict.require equal 13 0 }
{
    require(equal, Refusal::Equality)
}
