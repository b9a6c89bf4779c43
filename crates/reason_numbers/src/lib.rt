// Theorems only: each refusal and each fault has a number of its own, so that what a call answers is the one thing that its promise says.
#![tactic(auto)]
