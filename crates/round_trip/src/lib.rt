// Demand 3 of what the calls write (document 01, "Demand 3 in numbers"): every call that it is about, made one after the other for two
// blocks and one table. The theorem over the definitions is `demand-3` of the crate bounds. What document 02, card 8, says of two 12-bit
// blocks is in `twelve_bit`.

#![tactic(auto)]

pub mod twelve_bit;

ghost use Rattle.std.specs.Prelude.{◌≡◌, false, length};
ghost use Rattle.integers.specs.Fits16.{Fits16};
ghost use Rattle.lists.specs.Every.{Every};
ghost use Rattle.refusals.specs.Refusals.{status, written};
ghost use Rattle.refusals.specs.Numbers.{status_of, told};
ghost use Rattle.forward.specs.Canonical.{coefficients};
ghost use Rattle.bounds.specs.Demand3.{products, decoded};
ghost use Rattle.bounds.specs.Calls.{round_trip_tests, compared_answer, Claimed};

use fdct::fdct_quantize;
use idct_8x8::{islow_block, islow_block_i32};
use refusals::Refusal;
use stored_blocks::{dequantize, same};

#[tactic(auto, unfolding(refusals::specs::Refusals::status, bounds::specs::Calls::round_trip_tests))]
fn test_lengths(
    a: usize,
    b: usize,
    quant: usize,
    coefficients_a: usize,
    coefficients_b: usize,
    products: usize,
    samples: usize,
    products_i32: usize,
    samples_i32: usize,
) -> Result<(), Refusal>
    ensures { status_of result ≡ status (round_trip_tests a b quant coefficients_a coefficients_b products samples products_i32 samples_i32) }
{
    Refusal::Block.unless(a == 64)?;
    Refusal::Block.unless(b == 64)?;
    Refusal::Table.unless(quant == 64)?;
    Refusal::Output.unless(coefficients_a == 64)?;
    Refusal::Output.unless(coefficients_b == 64)?;
    Refusal::Output.unless(products == 64)?;
    Refusal::Output.unless(samples == 64)?;
    Refusal::Output.unless(products_i32 == 64)?;
    Refusal::Output.unless(samples_i32 == 64)
}

// Products that fit 16 bits, as numbers of 16 bits.
fn write_i16(products: &[i32], out: &mut [i16])
    requires every { Every Fits16 products.now }
    requires products_len { (length products.now ≡ 64) × (length out.old ≡ 64) }
    ensures { out.new ≡ products.now }
{
    for n in 0..64 {
        out[n] = products[n] as i16;
    }
}

// Codes two blocks under one table and compares their coefficients; dequantizes the first block's, and inverts the products at both
// input widths. Where the coefficients are the same the blocks are alike, and the first block's samples come back near.
pub fn round_trip(
    a: &[u8],
    b: &[u8],
    quant: &[u8],
    coefficients_a: &mut [i16],
    coefficients_b: &mut [i16],
    products_i16: &mut [i16],
    samples: &mut [u8],
    products_i32: &mut [i32],
    samples_i32: &mut [u8],
) -> Result<bool, Refusal>
    ensures value { told false result ≡ compared_answer (status (round_trip_tests (length a.now) (length b.now) (length quant.now) (length coefficients_a.old) (length coefficients_b.old) (length products_i16.old) (length samples.old) (length products_i32.old) (length samples_i32.old))) a.now b.now quant.now }
    ensures coefficients_a_after { coefficients_a.new ≡ written (status_of result) (coefficients a.now quant.now) coefficients_a.old }
    ensures coefficients_b_after { coefficients_b.new ≡ written (status_of result) (coefficients b.now quant.now) coefficients_b.old }
    ensures products_i16_after { products_i16.new ≡ written (status_of result) (products a.now quant.now) products_i16.old }
    ensures samples_after { samples.new ≡ written (status_of result) (decoded a.now quant.now) samples.old }
    ensures products_i32_after { products_i32.new ≡ written (status_of result) (products a.now quant.now) products_i32.old }
    ensures samples_i32_after { samples_i32.new ≡ written (status_of result) (decoded a.now quant.now) samples_i32.old }
    ensures claimed { status_of result ≡ 0 → Claimed quant.now a.now b.now coefficients_a.new coefficients_b.new products_i16.new samples.new products_i32.new samples_i32.new }
{
    test_lengths(
        a.len(),
        b.len(),
        quant.len(),
        coefficients_a.len(),
        coefficients_b.len(),
        products_i16.len(),
        samples.len(),
        products_i32.len(),
        samples_i32.len(),
    )?;
    fdct_quantize(a, quant, coefficients_a)?;
    fdct_quantize(b, quant, coefficients_b)?;
    dequantize(coefficients_a, quant, products_i32)?;
    write_i16(products_i32, products_i16);
    let _ = islow_block(products_i16, samples);
    let _ = islow_block_i32(products_i32, samples_i32);
    same(coefficients_a, coefficients_b)
}
