// A sheet with its buffers and what the call makes of it, as a row that the checker computes. It has no code; see specs/ and proofs/.
#![tactic(auto)]
