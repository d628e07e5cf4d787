// The known sheets of the rules as a table, and one theorem about all its rows. It has no code; see specs/ and proofs/.
#![tactic(auto)]
