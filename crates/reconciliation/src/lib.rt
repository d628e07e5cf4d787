#![tactic(auto)]

// A specification library: gene trees on species networks, and their LCA mapping under a switching. It has no code; see specs/ and proofs/.
