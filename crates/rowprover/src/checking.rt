// The exported check: 14 for the three lengths, then the word call on what the bytes hold (RULES 8).
ghost use Rattle.std.specs.Prelude.{◌≡◌, ◌≤◌, length};
ghost use Rattle.outcome.specs.Verdict.{outcome_of, Accepted};
ghost use Rattle.packing.specs.Packing.{unpacked};
ghost use Rattle.job_file.specs.File.{size_verdict};
ghost use Rattle.rowprover.specs.Exports.{query_bytes, most_section_bytes, sizes_verdict, CheckWords, CheckBytes};

use outcome::{Refusal, require};
use qap::FourAnswers;

// Bytes of a query: the point and the four answers (RULES 8).
const QUERY_BYTES: usize = 20;

// Bytes of the longest public section: 256 values and their count (RULES 3).
const MOST_SECTION_BYTES: usize = 1028;

// The word call on the words of the query.
fn check_words(circuit: &[u32], section: &[u32], query: &[u8]) -> Result<(), Refusal>
    requires { length query.now ≡ query_bytes }
    ensures { CheckWords circuit.now section.now (unpacked query.now) (outcome_of result) }
{
    let r = FourAnswers {
        first: packing::word_at(query, 4),
        second: packing::word_at(query, 8),
        third: packing::word_at(query, 12),
        fourth: packing::word_at(query, 16),
    };
    answer_check::check_answers(circuit, section, packing::word_at(query, 0), r)
}

// The words of a section that a circuit may ask for.
#[tactic(auto, using(outcome::proofs::Asked::asked, job_file::proofs::Sized::sized, packing::proofs::Unpacking::room))]
fn check_section(circuit: &[u32], section: &[u8], query: &[u8]) -> Result<(), Refusal>
    requires { Accepted (size_verdict (length section.now)) × (length section.now ≤ most_section_bytes) × (length query.now ≡ query_bytes) }
    ensures { CheckWords circuit.now (unpacked section.now) (unpacked query.now) (outcome_of result) }
{
    let mut room = slices::room();
    let words = &mut room[..section.len() / 4];
    packing::unpack(section, words);
    check_words(circuit, words, query)
}

// A section with more words than any circuit asks for is not read: a circuit that is accepted refuses it by 6.
fn check_circuit(circuit: &[u32], section: &[u8], query: &[u8]) -> Result<(), Refusal>
    requires { Accepted (size_verdict (length section.now)) × (length query.now ≡ query_bytes) }
    ensures { CheckWords circuit.now (unpacked section.now) (unpacked query.now) (outcome_of result) }
{
    if section.len() > MOST_SECTION_BYTES {
        reader::circuit_verdict(circuit)?;
        return Err(Refusal::Shape);
    }
    check_section(circuit, section, query)
}

// 14 for the lengths.
#[tactic(auto, using(outcome::proofs::Asked::asked), unfolding(crate::specs::Exports::sizes_verdict))]
fn sizes_verdict(circuit: usize, section: usize, query: usize) -> Result<(), Refusal>
    ensures { outcome_of result ≡ sizes_verdict circuit section query }
{
    job_file::size_verdict(circuit)?;
    job_file::size_verdict(section)?;
    require(query == QUERY_BYTES, Refusal::Bytes)
}

// 14 first, then the circuit's words.
#[tactic(auto, using(outcome::proofs::Asked::asked, job_file::proofs::Sized::sized, packing::proofs::Unpacking::room), unfolding(crate::specs::Exports::sizes_verdict, crate::specs::Exports::check_bytes_verdict))]
pub fn check_bytes(circuit: &[u8], section: &[u8], query: &[u8]) -> Result<(), Refusal>
    ensures { CheckBytes circuit.now section.now query.now (outcome_of result) }
{
    sizes_verdict(circuit.len(), section.len(), query.len())?;
    let mut room = packing::words_room();
    let words = &mut room[..circuit.len() / 4];
    packing::unpack(circuit, words);
    check_circuit(words, section, query)
}
