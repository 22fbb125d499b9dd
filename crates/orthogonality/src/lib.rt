// The basis is nearly orthogonal, and what follows for the sums of a block and for two blocks with equal coefficients: the sums of squares
// of demand 3 in specs/, theorems in proofs/. No code.

#![tactic(auto)]
