// A specification library: what the verdicts on a network and a gene tree give to the layers above. It has no code; see specs/ and proofs/.
#![tactic(auto)]
