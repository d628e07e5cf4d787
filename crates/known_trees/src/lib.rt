// The known sheets of the rules with their gene trees as text, and one theorem about all of them. It has no code; see specs/ and proofs/.
#![tactic(auto)]
