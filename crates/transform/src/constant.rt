// A block of 64 equal samples (transform.rs, the first test of `fdct_quantize`; document 01, "The guarded quantizer").
ghost use Rattle.std.specs.Prelude.{◌≡◌, true, ◌<◌, ◌^◌, pos, nat_abs, ◌-ℤ◌, ◌*ℤ◌};
ghost use Rattle.quantize.specs.Quantize.{coefficient};
ghost use Rattle.guarded_quantizer.specs.Record.{record_of};
ghost use Rattle.guarded_quantizer.specs.Constant.{constant, only_dc};

use guarded_quantizer::QuantizedBlock;
use quantize::quantize;

// Whether the 64 samples are equal. No branch for each, so that the compiler tests many at once.
#[tactic(auto, unfolding(lists::specs::Below::below))]
pub fn all_equal(block: &[u8; 64]) -> bool
    ensures { result ≡ constant block.now }
{
    let first = block[0];
    let mut same = true;
    for sample in block {
        same &= *sample == first;
    }
    same
}

// The canonical DC of 64 equal samples: 64 times the sample less 128, at the basis of n = 0, which is 2^29 everywhere.
fn constant_dc(sample: u8, quantizer: u8) -> i16
    ensures value { result ≡ coefficient ((pos sample -ℤ pos 128) *ℤ pos (2 ^ 35)) quantizer }
    ensures result_bound { nat_abs result < 2 ^ 15 }
{
    quantize(((sample as i64) - 128) * 0x8_0000_0000, quantizer as u16)
}

// The record of a block of equal samples.
pub fn constant_record(block: &[u8; 64], quant: &[u8; 64]) -> QuantizedBlock
    requires { constant block.now ≡ true }
    ensures { result ≡ record_of quant.now (only_dc block.now quant.now) }
{
    QuantizedBlock {
        dc: constant_dc(block[0], quant[0]),
        ac_coefficients: [0i16; 64],
        nonzero_ac: 0,
        divisors: *quant,
    }
}
