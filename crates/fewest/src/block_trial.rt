// One trial of one block: its 64 sums quantized under a table, decoded, and held against its samples.
//
// A squared difference of two samples is at most 255², and 64 of them fit 32 bits.
ghost use Rattle.std.specs.Prelude.{◌≡◌, cond, ℕ, ◌*◌, ◌^◌, ◌≤◌, ◌<◌, length, get_or, pos, nat_abs};
ghost use Rattle.integers.specs.Equal.{eq_z};
ghost use Rattle.percent.specs.Nonzeros.{nonzeros};
ghost use Rattle.fewest.specs.Fewest.{squared};
ghost use Rattle.fewest.specs.Blocks.{coded_sums, error_term, error_within, block_trial};

use crate::Trial;
use idct_8x8::write_i32;
use plane::decode::products_i32;
use quantize::quantize;

fn squared_difference(a: u8, b: u8) -> u32
    ensures value { result ≡ squared a b }
    ensures upper_bound { result ≤ 65025 }
{
    let d = u32::from(a.abs_diff(b));
    d * d
}

// One where a coefficient is not zero.
fn one_if_nonzero(coefficient: i16) -> u32
    ensures value { result ≡ cond (eq_z coefficient (pos 0)) 0 1 }
    ensures upper_bound { result ≤ 1 }
{
    if coefficient == 0 { 0 } else { 1 }
}

// How many of 64 coefficients are not zero.
fn count_nonzeros(coefficients: &[i16; 64]) -> u32
    ensures value { result ≡ nonzeros coefficients.now }
    ensures upper_bound { result ≤ 64 }
{
    let mut count = 0;
    for n in 0..64 {
        count += one_if_nonzero(coefficients[n]);
    }
    count
}

// A block of a plane, of which the first columns and rows lie in the plane, and its 64 sums.
#[derive(Clone, Copy)]
pub struct Summed {
    pub block: [u8; 64],
    pub sums: [i64; 64],
    pub columns: usize,
    pub rows: usize,
    ghost small: { (n : ℕ) → nat_abs (get_or sums n (pos 0)) ≤ 2 ^ 46 },
}

impl Summed {
    // Place i of the block, which counts where it lies in the plane.
    #[tactic(auto, unfolding(crate::specs::Blocks::error_term))]
    fn error_term(&self, decoded: &[u8; 64], i: usize) -> u32
        requires { i < 64 }
        ensures value { result ≡ error_term self.now.columns self.now.rows self.now.block decoded.now i }
        ensures upper_bound { result ≤ 65025 }
    {
        if i % 8 < self.columns && i / 8 < self.rows {
            squared_difference(self.block[i], decoded[i])
        } else {
            0
        }
    }

    // The error of a block past an edge of the plane.
    fn edge_error(&self, decoded: &[u8; 64]) -> u32
        ensures value { result ≡ error_within self.now.columns self.now.rows self.now.block decoded.now }
        ensures upper_bound { result ≤ 64 * 65025 }
    {
        let mut error = 0;
        for i in 0..64 {
            error += self.error_term(decoded, i);
        }
        error
    }

    // The error of a whole block, which most are: without a test the compiler works on several samples at once.
    fn whole_error(&self, decoded: &[u8; 64]) -> u32
        ensures value { result ≡ error_within 8 8 self.now.block decoded.now }
        ensures upper_bound { result ≤ 64 * 65025 }
    {
        let mut error = 0;
        for i in 0..64 {
            error += squared_difference(self.block[i], decoded[i]);
        }
        error
    }

    fn error_within(&self, decoded: &[u8; 64]) -> u32
        ensures value { result ≡ error_within self.now.columns self.now.rows self.now.block decoded.now }
        ensures upper_bound { result ≤ 64 * 65025 }
    {
        if self.columns == 8 && self.rows == 8 {
            self.whole_error(decoded)
        } else {
            self.edge_error(decoded)
        }
    }

    // Its coefficients under a table.
    fn quantized(&self, quant: &[u8]) -> [i16; 64]
        requires { length quant.now ≡ 64 }
        ensures { result ≡ coded_sums self.now.sums quant.now }
    {
        let mut coefficients = [0i16; 64];
        for n in 0..64 {
            coefficients[n] = quantize(self.sums[n], u16::from(quant[n]));
        }
        coefficients
    }

    // How many of them are not zero, without decoding.
    pub fn count_of(&self, quant: &[u8]) -> u32
        requires { length quant.now ≡ 64 }
        ensures value { result ≡ nonzeros (coded_sums self.now.sums quant.now) }
        ensures upper_bound { result ≤ 64 }
    {
        count_nonzeros(&self.quantized(quant))
    }

    // Its trial under a table.
    pub fn try_table(&self, quant: &[u8]) -> Trial
        requires { length quant.now ≡ 64 }
        ensures value { result ≡ block_trial self.now.columns self.now.rows self.now.block self.now.sums quant.now }
        ensures error_bound { (result.error ≤ 64 * 65025) × (result.count ≤ 64) }
    {
        let coefficients = self.quantized(quant);
        let products = products_i32(&coefficients, quant);
        let mut decoded = [0u8; 64];
        write_i32(&products, &mut decoded);
        Trial {
            error: self.error_within(&decoded),
            count: count_nonzeros(&coefficients),
        }
    }
}
