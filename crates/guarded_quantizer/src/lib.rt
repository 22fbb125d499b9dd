// Definitions and laws of the guarded quantizer, and no code (transform.rs; document 01, "The guarded quantizer"): the transform's values
// in f64 and the divisors (code: fdct_f64), the guard and the rounding of an f64, the record of DC, AC places, bitmap and divisors, the
// sameness of two records, and what the entry answers (code: transform). The structs that they speak of are declared here.

#![tactic(auto)]

// What the guarded quantizer multiplies by instead of dividing.
#[derive(Clone, Copy, Debug)]
pub struct QuantizationDivisors {
    pub reciprocals: [f64; 64],
}

// The record of a quantized block (transform.rs, `QuantizedBlock`, which has no divisors; those by document 02, card 9).
// It has no `==`: which records are the same, `transform::same::same_records` says.
#[derive(Clone, Copy, Debug)]
pub struct QuantizedBlock {
    pub dc: i16,
    // In zigzag order; place 0 is 0.
    pub ac_coefficients: [i16; 64],
    // Bit 64 - z is set where place z is not 0.
    pub nonzero_ac: u64,
    // The quantizer table handed over, in natural order, whatever reciprocals were used.
    pub divisors: [u8; 64],
}
