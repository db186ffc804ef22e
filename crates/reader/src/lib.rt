// The circuit reader: for any words exactly one number and place, numbers 0 to 5 of the table of RULES 6.
#![tactic(auto)]

ghost use Rattle.std.specs.Prelude.{◌≡◌, ◌+◌, ◌≤◌, length};
ghost use Rattle.outcome.specs.Verdict.{outcome_of, first_fault};
ghost use Rattle.circuit.specs.Circuit.{section};
ghost use Rattle.circuit.specs.Reader.{section_verdict, counts_verdict, prefix_verdict, circuit_verdict};
ghost use Rattle.circuit.specs.WellFormed.{Formed};
ghost use Rattle.field.specs.Field.{p};

use circuit::limits::{MATRICES, MOST_COLUMNS, MOST_ENTRIES, MOST_ROWS};
use outcome::{Refusal, require, within};

mod entry;

// Sections A, B, C from index 3 on. Both loops are left at the first fault met.
fn sections_verdict(words: &[u32]) -> Result<(), Refusal>
    requires { 3 ≤ length words.now }
    ensures { outcome_of result ≡ first_fault (λ matrix. section_verdict p words.now (section words.now matrix)) 3 }
{
    let size = words.len();
    let mut start = 3;
    'sections: {
        for matrix in 0..MATRICES {
            require(start < size, Refusal::Extent(size))?;
            let entries = words[start] as usize;
            let end = start + 1 + 3 * entries;
            require(entries <= MOST_ENTRIES, Refusal::Limit(start))?;
            require(end <= size, Refusal::Extent(size))?;
            for e in 0..entries {
                // By the label: DECISIONS holds this place to it.
                let found = entry::entry_verdict(words, start, e);
                if found.is_err() {
                    break 'sections found;
                }
            }
            start = end;
        }
        Ok(())
    }
}

// m, n, q in that order; they stand as m, q, n.
#[tactic(auto, using(outcome::proofs::Asked::asked), unfolding(circuit::specs::Reader::counts_verdict))]
fn counts_verdict(m: u32, q: u32, n: u32) -> Result<(), Refusal>
    ensures { outcome_of result ≡ counts_verdict m q n }
{
    require(within(1, m, MOST_ROWS), Refusal::Limit(0))?;
    require(within(1, n, MOST_COLUMNS), Refusal::Limit(2))?;
    require(within(1, q, n), Refusal::Limit(1))
}

// Words that begin with a circuit; what follows it is the caller's to judge.
#[tactic(auto, using(outcome::proofs::Asked::asked), unfolding(circuit::specs::Reader::prefix_verdict))]
pub fn prefix_verdict(words: &[u32]) -> Result<(), Refusal>
    ensures { outcome_of result ≡ prefix_verdict p words.now }
{
    require(3 <= words.len(), Refusal::Extent(words.len()))?;
    counts_verdict(words[0], words[1], words[2])?;
    sections_verdict(words)
}

// The index of the count of entries of matrix 0, 1 or 2; for 3 the index where the circuit ends.
pub fn section_start(words: &[u32], matrix: usize) -> usize
    requires { Formed p words.now × (matrix ≤ 3) }
    ensures { result ≡ section words.now matrix }
{
    let mut start = 3;
    for k in 0..matrix {
        let entries = words[start] as usize;
        start += 1 + 3 * entries;
    }
    start
}

// Words that are a circuit and nothing else.
#[tactic(auto, using(outcome::proofs::Asked::asked), unfolding(circuit::specs::Reader::circuit_verdict))]
pub fn circuit_verdict(words: &[u32]) -> Result<(), Refusal>
    ensures { outcome_of result ≡ circuit_verdict p words.now }
{
    prefix_verdict(words)?;
    let end = section_start(words, MATRICES);
    require(end == words.len(), Refusal::Extent(words.len()))
}
