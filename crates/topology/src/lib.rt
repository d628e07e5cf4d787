#![tactic(auto)]

// A specification library: species networks, switchings, and the components between cut arcs. It has no code; see specs/ and proofs/.
