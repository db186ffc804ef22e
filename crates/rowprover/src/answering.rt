// The exported answers: bytes to words, the file's verdict with 8 between 11 and 10, then the four answers as bytes (RULES 8).
ghost use Rattle.std.specs.Prelude.{◌≡◌, length};
ghost use Rattle.outcome.specs.Verdict.{outcome_of, Accepted};
ghost use Rattle.packing.specs.Packing.{packed};
ghost use Rattle.qap.specs.declared.Blinders.{Blinders};
ghost use Rattle.qap.specs.declared.FourAnswers.{FourAnswers};
ghost use Rattle.qap.specs.Refusals.{answer_words, ready_verdict, point_verdict};
ghost use Rattle.qap.specs.Setting.{standard};
ghost use Rattle.rowprover.specs.Exports.{answers_bytes, RowsFilled, WordsFilled, JobFilled};

use outcome::Refusal;
use qap::{Blinders, FourAnswers};

// Bytes of the four answers (RULES 8).
const ANSWERS_BYTES: usize = 16;

// The four answers as bytes.
fn write_answers(r: FourAnswers, out: &mut [u8])
    requires { length out.old ≡ answers_bytes }
    ensures { out.new ≡ packed (answer_words r) }
{
    let words = [r.first, r.second, r.third, r.fourth];
    packing::pack(&words, out);
}

// 10, then the answers.
#[tactic(auto, using(outcome::proofs::Asked::asked))]
fn answer_parts(
    circuit: &[u32],
    values: &[u32],
    d: Blinders,
    s: u32,
    out: &mut [u8],
) -> Result<(), Refusal>
    requires { Accepted (ready_verdict standard circuit.now values.now d) × Accepted (point_verdict standard circuit.now s) × (length out.old ≡ answers_bytes) }
    ensures { RowsFilled circuit.now values.now d s out.old out.new (outcome_of result) }
{
    let found = answers::answer_rows(circuit, values, d, s)?;
    write_answers(found, out);
    Ok(())
}

// The words of a job.
#[tactic(auto, using(outcome::proofs::Asked::asked, job_file::proofs::ReadParts::read_parts, packing::proofs::Unpacking::room), unfolding(crate::specs::Exports::words_then_size))]
fn answers_words(words: &[u32], out: &mut [u8]) -> Result<(), Refusal>
    ensures { WordsFilled words.now out.old out.new (outcome_of result) }
{
    let job = job_file::read(words)?;
    refusals::length_verdict(out.len(), ANSWERS_BYTES)?;
    answer_parts(
        &words[..job.circuit],
        &words[job.circuit..job.assignment],
        job.d,
        job.s,
        out,
    )
}

// 14 first, then the words that the bytes hold.
#[tactic(auto, using(outcome::proofs::Asked::asked, job_file::proofs::Sized::sized, packing::proofs::Unpacking::room), unfolding(crate::specs::Exports::answers_bytes_verdict))]
pub fn answers_bytes(job: &[u8], out: &mut [u8]) -> Result<(), Refusal>
    ensures { JobFilled job.now out.old out.new (outcome_of result) }
{
    job_file::size_verdict(job.len())?;
    let mut room = packing::words_room();
    let words = &mut room[..job.len() / 4];
    packing::unpack(job, words);
    answers_words(words, out)
}
