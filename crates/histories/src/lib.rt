// A specification library: the histories of a gene in the network as a whole, and their least costs. It has no code; see specs/ and proofs/.
#![tactic(auto)]
