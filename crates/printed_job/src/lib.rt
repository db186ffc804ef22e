// What the job program prints for the bytes of its file: RULES 7.
#![tactic(auto)]

ghost use Rattle.std.specs.Prelude.{[], ◌∷◌, ◌≡◌, ◌≤◌, length};
ghost use Rattle.outcome.specs.Verdict.{told, Accepted};
ghost use Rattle.packing.specs.Packing.{unpacked};
ghost use Rattle.text.specs.Text.{line};
ghost use Rattle.qap.specs.Answers.{IsAnswers};
ghost use Rattle.qap.specs.Refusals.{answers_verdict};
ghost use Rattle.qap.specs.Setting.{standard};
ghost use Rattle.job_file.specs.File.{job_verdict};
ghost use Rattle.printed_job.specs.Lines.{most_coefficients, program_verdict, five_lines, FiveOf, FiveLines, Prints};
ghost use Rattle.printed_job.specs.TextUpTo.{TextUpTo, Written, text_room, blank};

use outcome::{Outcome, Refusal};
use qap::{Blinders, FourAnswers};

// Bytes that are enough for the five lines.
const TEXT_ROOM: usize = 11008;

// The text is bytes[..size]; the bytes behind it are 0. An array with a size and no String: the product allocates nothing.
// Inside, the text is lent as a slice whose length is asked for: an array behind a reference does not bring its length to a proof.
#[derive(Drop)]
pub struct Printed {
    pub bytes: [u8; TEXT_ROOM],
    pub size: usize,
}

// The one line of a refusal.
fn refuse(refusal: Refusal, text: &mut [u8]) -> usize
    requires { text_room ≤ length text.old }
    ensures { TextUpTo (λ t. t ≡ line ((told refusal).number ∷ (told refusal).place ∷ [])) text.old text.new result }
{
    let o = Outcome::from(refusal);
    text::put_two(o.number as usize, o.place, text, 0)
}

// The five lines, one after the other.
fn put_five(z: &[u32], h: &[u32], r: FourAnswers, number: u32, text: &mut [u8]) -> usize
    requires { (length z.now ≤ most_coefficients) × (length h.now ≤ most_coefficients) × (text_room ≤ length text.old) }
    ensures { TextUpTo (λ t. t ≡ five_lines z.now h.now r number) text.old text.new result }
{
    let answers = [r.first, r.second, r.third, r.fourth];
    let check = [number];
    let first = text::put_two(0, 0, text, 0);
    let second = text::put_line(z, text, first);
    let third = text::put_line(h, text, second);
    let fourth = text::put_line(&answers, text, third);
    text::put_line(&check, text, fourth)
}

// What is printed beside the answers r: target and quotient, of one word more than there are rows, and the check of r.
// Where the answers' verdict accepts, neither call refuses.
#[tactic(auto, using(outcome::proofs::Asked::asked, crate::proofs::LinesLaws::behind_answers, packing::proofs::Unpacking::room))]
fn print_five(
    circuit: &[u32],
    values: &[u32],
    d: Blinders,
    s: u32,
    r: FourAnswers,
    text: &mut [u8],
) -> usize
    requires accepted { Accepted (answers_verdict standard circuit.now values.now d s) × IsAnswers standard circuit.now values.now d s r }
    requires text_room_in_bounds { text_room ≤ length text.old }
    ensures { TextUpTo (FiveOf circuit.now values.now d s) text.old text.new result }
{
    let m = circuit::counts::rows_of(circuit);
    let size = m + 1;
    let mut z_room = slices::room();
    let mut h_room = slices::room();
    let z = &mut z_room[..size];
    let h = &mut h_room[..size];
    target::target(m as u32, z).unwrap();
    quotient::quotient(circuit, values, d, h).unwrap();
    let section = assignment::public_section(circuit, values);
    let check = Outcome::from(answer_check::check_answers(circuit, section, s, r));
    put_five(z, h, r, check.number, text)
}

// A job's parts. Of those that a file was read into only the rows can fail.
fn print_job(
    circuit: &[u32],
    values: &[u32],
    d: Blinders,
    s: u32,
    text: &mut [u8],
) -> Result<usize, Refusal>
    requires { text_room ≤ length text.old }
    ensures { Written (answers_verdict standard circuit.now values.now d s) (FiveOf circuit.now values.now d s) text.old text.new result }
{
    let r = answers::answers(circuit, values, d, s)?;
    Ok(print_five(circuit, values, d, s, r, text))
}

// A file's words.
#[tactic(auto, using(outcome::proofs::Asked::asked, job_file::proofs::ReadParts::read_parts, packing::proofs::Unpacking::room), unfolding(job_file::specs::File::job_verdict))]
fn print_words(words: &[u32], text: &mut [u8]) -> Result<usize, Refusal>
    requires { text_room ≤ length text.old }
    ensures { Written (job_verdict words.now) (FiveLines words.now) text.old text.new result }
{
    let job = job_file::read(words)?;
    let circuit = &words[..job.circuit];
    let values = &words[job.circuit..job.assignment];
    print_job(circuit, values, job.d, job.s, text)
}

// 14 first, then the words that the bytes hold.
#[tactic(auto, using(outcome::proofs::Asked::asked, job_file::proofs::Sized::sized, packing::proofs::Unpacking::room), unfolding(crate::specs::Lines::program_verdict))]
fn print_bytes(input: &[u8], text: &mut [u8]) -> Result<usize, Refusal>
    requires { text_room ≤ length text.old }
    ensures { Written (program_verdict input.now) (FiveLines (unpacked input.now)) text.old text.new result }
{
    job_file::size_verdict(input.len())?;
    let mut room = packing::words_room();
    let words = &mut room[..input.len() / 4];
    packing::unpack(input, words);
    print_words(words, text)
}

// The five lines, or that of the refusal.
fn print(input: &[u8], text: &mut [u8]) -> usize
    requires { text_room ≤ length text.old }
    ensures { TextUpTo (Prints input.now) text.old text.new result }
{
    match print_bytes(input, text) {
        Ok(size) => size,
        Err(refusal) => refuse(refusal, text),
    }
}

// All that the program prints for the bytes of standard input.
#[tactic(auto, unfolding(crate::specs::TextUpTo::blank))]
pub fn run(input: &[u8]) -> Printed
    ensures { TextUpTo (Prints input.now) blank result.bytes result.size }
{
    let mut bytes = [0u8; TEXT_ROOM];
    let size = print(input, &mut bytes);
    Printed { bytes, size }
}
