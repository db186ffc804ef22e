// Mathematics without code: what the other crates' contracts and proofs cite stands in specs/ and proofs/.
#![tactic(auto)]
