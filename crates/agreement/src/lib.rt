// The guarded quantizer and the canonical one give equal coefficients (document 02, card 10): definitions and laws.

#![tactic(auto)]
