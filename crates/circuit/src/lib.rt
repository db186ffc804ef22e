// Circuits: what their words mean (RULES 2), their limits, counts and entries; crate reader judges them.
// A circuit is words, and no struct that is formed by its invariant: calls take any words, and the inner functions that CONTRACTS lists
// ask no more than the clause `Formed` of them, which words that go on behind a circuit meet too; private functions take what those hand on.
// Circuit, assignment and blinders stay apart, as the calls lend them: RULES 6 has them one by one.
#![tactic(auto)]

pub mod counts;
pub mod entry;
pub mod limits;
