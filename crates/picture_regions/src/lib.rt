// Definitions and laws only: what a result buffer holds while the blocks of a picture are copied into it.
#![tactic(auto)]
