// Assignments and public sections: numbers 6 and 7 of the table of RULES 6, and the public section handed out.
#![tactic(auto)]

ghost use Rattle.std.specs.Prelude.{◌≡◌, ◌≤◌, ◌<◌, ℕ, IfErr, length};
ghost use Rattle.outcome.specs.Verdict.{outcome_of};
ghost use Rattle.circuit.specs.WellFormed.{Formed};
ghost use Rattle.field.specs.Field.{p};
ghost use Rattle.assignment.specs.Assignment.{words_verdict, at_index, values_verdict, assignment_verdict, public_verdict, circuit_then_assignment, public_section};

use outcome::{Refusal, require};

// Every word a field word, or the index of the first that is none.
pub fn field_words(words: &[u32]) -> Result<(), usize>
    ensures inside { IfErr result (λ i. i < length words.now) }
    ensures verdict { (number first : ℕ) → 0 < number → at_index result number first ≡ words_verdict p number first words.now }
{
    for (i, &word) in words.iter().enumerate() {
        if word > field::MINUS_ONE {
            return Err(i);
        }
    }
    Ok(())
}

// 7: the first value is 1, and every word a field word.
#[tactic(auto, using(outcome::proofs::Asked::asked), unfolding(crate::specs::Assignment::values_verdict))]
fn values_verdict(values: &[u32]) -> Result<(), Refusal>
    requires { 2 ≤ length values.now }
    ensures { outcome_of result ≡ values_verdict p values.now }
{
    require(values[1] == 1, Refusal::Assigned(1))?;
    field_words(values).map_err(Refusal::Assigned)
}

// 6, then 7, for a caller that has judged the circuit already. Its words may go on after the circuit.
#[tactic(auto, using(outcome::proofs::Asked::asked), unfolding(crate::specs::Assignment::assignment_verdict))]
pub fn assignment_words_verdict(circuit: &[u32], values: &[u32]) -> Result<(), Refusal>
    requires { Formed p circuit.now }
    ensures { outcome_of result ≡ assignment_verdict p circuit.now values.now }
{
    let q = circuit::counts::publics_of(circuit);
    let n = circuit::counts::columns_of(circuit);
    require(values.len() == n + 2, Refusal::Shape)?;
    require(values[0] as usize == q, Refusal::Shape)?;
    require(values[q + 1] as usize == n - q, Refusal::Shape)?;
    values_verdict(values)
}

// The same for a public section alone.
#[tactic(auto, using(outcome::proofs::Asked::asked), unfolding(crate::specs::Assignment::public_verdict))]
pub fn public_words_verdict(circuit: &[u32], section: &[u32]) -> Result<(), Refusal>
    requires { Formed p circuit.now }
    ensures { outcome_of result ≡ public_verdict p circuit.now section.now }
{
    let q = circuit::counts::publics_of(circuit);
    require(section.len() == q + 1, Refusal::Shape)?;
    require(section[0] as usize == q, Refusal::Shape)?;
    values_verdict(section)
}

// The circuit, then the assignment.
#[tactic(auto, using(outcome::proofs::Asked::asked, circuit::proofs::Formed::formed_behind), unfolding(crate::specs::Assignment::circuit_then_assignment))]
pub fn assignment_verdict(circuit: &[u32], values: &[u32]) -> Result<(), Refusal>
    ensures { outcome_of result ≡ circuit_then_assignment p circuit.now values.now }
{
    reader::circuit_verdict(circuit)?;
    assignment_words_verdict(circuit, values)
}

// The part of the lent assignment that holds the public section, or an empty part: a slice and no Option, since document and definition
// (`public_section`) have it so.
pub fn public_section<'a>(circuit: &[u32], values: &'a [u32]) -> &'a [u32]
    ensures { result.now ≡ public_section p circuit.now values.now }
{
    if assignment_verdict(circuit, values).is_err() {
        return &values[..0];
    }
    let end = circuit::counts::publics_of(circuit) + 1;
    &values[..end]
}
