// Reads a job file's words: which number and place they get, and where circuit and assignment end (RULES 7).
#![tactic(auto)]

ghost use Rattle.std.specs.Prelude.{◌≡◌, length};
ghost use Rattle.outcome.specs.Verdict.{outcome_of};
ghost use Rattle.circuit.specs.WellFormed.{Formed};
ghost use Rattle.field.specs.Field.{p};
ghost use Rattle.job_file.specs.File.{size_verdict, trailer_verdict};
ghost use Rattle.job_file.specs.Given.{blinders_in, given_verdict, rest_verdict};
ghost use Rattle.job_file.specs.Read.{Read};

use assignment::assignment_words_verdict;
use circuit::limits::MATRICES;
use outcome::{Refusal, require};
use qap::Blinders;
use refusals::{blinders_verdict, point_verdict};

// The words [..circuit] are the circuit, [circuit..assignment] the assignment. They are ends and no parts, since a part has an
// address: `FileLaws.read_determined` says that two jobs read from the same words are equal.
#[derive(Clone, Copy)]
pub struct Job {
    pub circuit: usize,
    pub assignment: usize,
    pub d: Blinders,
    pub s: u32,
}

// Of a job file: RULES 7.
pub const MOST_BYTES: usize = 37944;

// 14 of a number of bytes.
#[tactic(auto, using(outcome::proofs::Asked::asked), unfolding(crate::specs::File::size_verdict))]
pub fn size_verdict(size: usize) -> Result<(), Refusal>
    ensures { outcome_of result ≡ size_verdict size }
{
    require(size <= MOST_BYTES, Refusal::Bytes)?;
    require(size % 4 == 0, Refusal::Bytes)
}

// 14 of what remains after the assignment.
#[tactic(auto, using(outcome::proofs::Asked::asked), unfolding(crate::specs::File::trailer_verdict))]
fn trailer_verdict(t: &[u32]) -> Result<(), Refusal>
    ensures { outcome_of result ≡ trailer_verdict t.now }
{
    require(t.len() == 6, Refusal::Bytes)?;
    require(t[0] == 3, Refusal::Bytes)?;
    require(t[4] == 1, Refusal::Bytes)
}

// The three blinders among the words that remain.
fn blinders_in(t: &[u32]) -> Blinders
    requires { length t.now ≡ 6 }
    ensures { result ≡ blinders_in t.now }
{
    Blinders {
        first: t[1],
        second: t[2],
        third: t[3],
    }
}

// The assignment, then what remains after it.
#[tactic(auto, using(outcome::proofs::Asked::asked), unfolding(crate::specs::Given::given_verdict))]
fn given_verdict(circuit: &[u32], values: &[u32], t: &[u32]) -> Result<(), Refusal>
    requires { Formed p circuit.now }
    ensures { outcome_of result ≡ given_verdict circuit.now values.now t.now }
{
    assignment_words_verdict(circuit, values)?;
    trailer_verdict(t)?;
    blinders_verdict(blinders_in(t))?;
    point_verdict(circuit, t[5])
}

// All that follows the circuit.
fn rest_verdict(circuit: &[u32], rest: &[u32]) -> Result<(), Refusal>
    requires { Formed p circuit.now }
    ensures { outcome_of result ≡ rest_verdict circuit.now rest.now }
{
    let size = circuit::counts::columns_of(circuit) + 2;
    require(size <= rest.len(), Refusal::Shape)?;
    given_verdict(circuit, &rest[..size], &rest[size..])
}

// The whole file by all numbers but 10, which the caller asks for.
pub fn read(words: &[u32]) -> Result<Job, Refusal>
    ensures { Read words.now result }
{
    reader::prefix_verdict(words)?;
    let end = reader::section_start(words, MATRICES);
    rest_verdict(&words[..end], &words[end..])?;
    let last = end + circuit::counts::columns_of(words) + 2;
    Ok(Job {
        circuit: end,
        assignment: last,
        d: blinders_in(&words[last..]),
        s: words[last + 5],
    })
}
