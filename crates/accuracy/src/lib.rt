// How near the 8-bit 8×8 inverse comes to the exact sum over the basis: definitions in specs/, theorems in proofs/. No code.

#![tactic(auto)]
