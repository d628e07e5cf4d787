// No code: a sheet with gene lines written out behind its network lines, and what the call reads in it. See specs/ and proofs/.
#![tactic(auto)]
