// The record of a quantized block, made from its coefficients (transform.rs, `QuantizedBlock`; document 01, "The guarded quantizer"; its
// divisors by document 02, card 9).
ghost use Rattle.std.specs.Prelude.{◌≡◌, ◌≤◌, ◌<◌, ◌-◌, get_or, pos};
ghost use Rattle.guarded_quantizer.specs.Bitmap.{with_bit, nonzero};
ghost use Rattle.guarded_quantizer.specs.Record.{record_of};

use guarded_quantizer::QuantizedBlock;
use zigzag::zigzag;

// 1 for a coefficient that is not 0.
fn nonzero_bit(coefficient: i16) -> u64
    ensures { result ≡ nonzero coefficient }
{
    u64::from(coefficient != 0)
}

// The bitmap with the bit of AC place `zigzag` cleared, and set if its coefficient is not 0. No branch: random coefficients would mislead it.
fn update_nonzero_ac(bitmap: u64, zigzag: usize, coefficient: i16) -> u64
    requires le_zigzag { 1 ≤ zigzag }
    requires zigzag_bound { zigzag < 64 }
    ensures { result ≡ with_bit bitmap (64 - zigzag) (nonzero coefficient) }
{
    let place = 64 - zigzag;
    (bitmap & !(1u64 << place)) | (nonzero_bit(coefficient) << place)
}

// The record of coefficients in natural order, quantized under `quant`. In a loop of its own the bitmap stays in a register, and no branch
// waits for a coefficient.
pub fn from_natural_order(coefficients: &[i16; 64], quant: &[u8; 64]) -> QuantizedBlock
    ensures { result ≡ record_of quant.now (λ n. get_or coefficients.now n (pos 0)) }
{
    let order = zigzag();
    let mut ac_coefficients = [0i16; 64];
    let mut nonzero_ac = 0u64;
    for z in 1..64 {
        let coefficient = coefficients[order[z] as usize];
        ac_coefficients[z] = coefficient;
        nonzero_ac = update_nonzero_ac(nonzero_ac, z, coefficient);
    }
    QuantizedBlock {
        dc: coefficients[0],
        ac_coefficients,
        nonzero_ac,
        divisors: *quant,
    }
}
