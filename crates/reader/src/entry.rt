// One entry of a section by 3, 4, 5 (RULES 6).
ghost use Rattle.std.specs.Prelude.{◌≡◌, ◌+◌, ◌≤◌, length};
ghost use Rattle.outcome.specs.Verdict.{outcome_of};
ghost use Rattle.circuit.specs.Circuit.{entry_at};
ghost use Rattle.circuit.specs.Reader.{ranges_verdict, entry_verdict};
ghost use Rattle.field.specs.Field.{p};

use circuit::entry::{Entry, entry_of};
use outcome::{Refusal, require, within};

// Row and column by 3, then the value by 4.
#[tactic(auto, using(outcome::proofs::Asked::asked), unfolding(circuit::specs::Reader::ranges_verdict))]
fn ranges_verdict(m: u32, n: u32, entry: Entry, at: usize) -> Result<(), Refusal>
    ensures { outcome_of result ≡ ranges_verdict p m n entry.row entry.column entry.value at }
{
    require(within(1, entry.row, m), Refusal::Position(at))?;
    require(within(1, entry.column, n), Refusal::Position(at))?;
    require(within(1, entry.value, field::MINUS_ONE), Refusal::Value(at))
}

// By row, then column. In three steps: as one expression, which is the definition's form, a full circuit takes a tenth more instructions to
// read and up to two fifths more time.
fn above(entry: Entry, before: Entry) -> bool
    ensures { result ≡ Rattle.circuit.specs.Reader.above entry.row entry.column before.row before.column }
{
    if before.row < entry.row {
        return true;
    }
    if entry.row < before.row {
        return false;
    }
    before.column < entry.column
}

// Entry e of the section whose count stands at `start` is above the one before it.
fn ascends(words: &[u32], start: usize, e: usize) -> bool
    requires { entry_at start e + 3 ≤ length words.now }
    ensures { result ≡ Rattle.circuit.specs.Reader.ascends words.now start e }
{
    e == 0 || above(entry_of(words, start, e), entry_of(words, start, e - 1))
}

// The same entry by 3, 4, 5.
#[tactic(auto, using(outcome::proofs::Asked::asked), unfolding(circuit::specs::Reader::entry_verdict))]
pub fn entry_verdict(words: &[u32], start: usize, e: usize) -> Result<(), Refusal>
    requires { (3 ≤ length words.now) × (entry_at start e + 3 ≤ length words.now) }
    ensures { outcome_of result ≡ entry_verdict p words.now start e }
{
    let at = start + 1 + 3 * e;
    ranges_verdict(words[0], words[2], entry_of(words, start, e), at)?;
    require(ascends(words, start, e), Refusal::Order(at))
}
