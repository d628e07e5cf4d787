// A specification library: a history told gene by gene, the order of such tellings, and the one to write. It has no code; see specs/ and proofs/.
#![tactic(auto)]
