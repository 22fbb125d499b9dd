// Demand 3: what two blocks with equal coefficients can differ by, and how far a block comes back from its coefficients (document 01,
// "Demand 3 in numbers"). Definitions in specs/, the theorem `demand-3` in proofs/. No code.

#![tactic(auto)]
