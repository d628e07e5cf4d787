#![tactic(auto)]

// A specification library: counting over 1..n. It has no code; see specs/ for the definitions and proofs/ for their laws.
