// The two functions that a host calls on bytes (RULES 8). Neither asks anything of its input.
#![tactic(auto)]

ghost use Rattle.std.specs.Prelude.{◌≡◌, ◌≤◌};
ghost use Rattle.packing.specs.Packing.{job_words};
ghost use Rattle.rowprover.specs.Exports.{AnswersExport, CheckExport};

mod answering;
mod checking;

use outcome::Outcome;

// Number and place as one integer; a place by `as`, for there is no From between usize and u64. No place is above the number of words.
fn integer(o: Outcome) -> u64
    requires { o.place ≤ job_words }
    ensures { result ≡ Rattle.rowprover.specs.Exports.integer o }
{
    256 * (o.place as u64) + u64::from(o.number)
}

// The four answers to a job, into 16 bytes.
#[unsafe(no_mangle)]
pub extern "C" fn rowprover_answers(job: &[u8], out: &mut [u8]) -> u64
    ensures { AnswersExport job.now out.old out.new result }
{
    integer(Outcome::from(answering::answers_bytes(job, out)))
}

// The answer check on circuit, public section, and the 20 bytes of point and answers.
#[unsafe(no_mangle)]
pub extern "C" fn rowprover_check(circuit: &[u8], section: &[u8], query: &[u8]) -> u64
    ensures { CheckExport circuit.now section.now query.now result }
{
    integer(Outcome::from(checking::check_bytes(circuit, section, query)))
}
