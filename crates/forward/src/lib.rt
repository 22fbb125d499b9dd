// Definitions and laws alone: the canonical forward transform over the centre of the samples (document 01, leaf 4; T.81 A.3.3).
// The code is in fdct_block and fdct.

#![tactic(auto)]
