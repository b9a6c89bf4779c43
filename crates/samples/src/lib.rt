// Definitions and a theorem only: see specs/ and proofs/.
#![tactic(auto)]
