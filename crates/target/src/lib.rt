// The target call (RULES 4): m alone. It asks nothing of its input; refused, it changes no word lent to it.
#![tactic(auto)]

ghost use Rattle.std.specs.Prelude.{◌≡◌, length};
ghost use Rattle.outcome.specs.Verdict.{outcome_of, Accepted};
ghost use Rattle.algebra.specs.Points.{row_points, target};
ghost use Rattle.field.specs.Field.{p};
ghost use Rattle.qap.specs.Refusals.{target_verdict};
ghost use Rattle.qap.specs.Calls.{TargetCall};
ghost use Rattle.qap.specs.Setting.{standard};

use circuit::limits::MOST_ROWS;
use outcome::{Refusal, require, within};
use refusals::length_verdict;

// m alone, then the length wanted.
fn target_verdict(m: u32, size: usize) -> Result<(), Refusal>
    ensures { outcome_of result ≡ target_verdict standard m size }
{
    require(within(1, m, MOST_ROWS), Refusal::Limit(0))?;
    length_verdict(size, m as usize + 1)
}

fn fill_target(m: u32, out: &mut [u32])
    requires { Accepted (target_verdict standard m (length out.old)) }
    ensures { out.new ≡ target p (row_points m) }
{
    poly::target(out);
}

// The target of m rows, into m + 1 words.
#[tactic(auto, using(outcome::proofs::Asked::asked))]
pub fn target(m: u32, out: &mut [u32]) -> Result<(), Refusal>
    ensures { TargetCall standard m out.old out.new (outcome_of result) }
{
    target_verdict(m, out.len())?;
    fill_target(m, out);
    Ok(())
}
