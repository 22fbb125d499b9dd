// The 12-bit ISLOW inverse blocks, 8×8, 4×4 and 2×2, of 16-bit coefficients (idct.rs, `islow_block_12bit` and its two reduced sizes;
// document 01, "The inverse blocks").
//
// Columns first, then rows, without a zero shortcut. The column pass keeps PASS1_BITS_12 fraction bits, the row pass takes them and the
// 1/8 normalisation off, and `sample_12bit` shifts the level and clamps. Nothing wraps: document 01's blocks at 64 bits are the exact
// sums, rounded and scaled down (`exact-eight`, `exact-four`, `Exact-two` of block/proofs/Exact.antt). So the passes may go at 32 bits
// where their sums fit: the columns of 8×8 do (`columns-narrow`, there), those of 4×4 do with p0 taken apart (`four-apart` of
// proofs/Apart.antt); those of 2×2 and every row go at 64 bits.
//
// Each entry answers its refusal number, 1 for an input not of 64 places, then 3 for an output of the wrong length, and then leaves the
// output as it was; or 0, and the output holds the samples.

#![tactic(auto)]

mod eight;
mod four;
mod passes_12bit;
mod samples_12bit;
mod two;

ghost use Rattle.std.specs.Prelude.{◌≡◌};
ghost use Rattle.passes.specs.Passes.{eight, four, two};
ghost use Rattle.block.specs.Block.{block12bit, inverse_tests};
ghost use Rattle.refusals.specs.Refusals.{status, written};
ghost use Rattle.refusals.specs.Numbers.{status_of};

use crate::eight::rows_8;
use crate::four::{columns_4, rows_4};
use crate::passes_12bit::PASS1_SHIFT_12;
use crate::two::{columns_2, rows_2};
use idct_8x8::islow_columns;
use refusals::Refusal;

// The 8×8 block.
#[tactic(auto, unfolding(refusals::specs::Refusals::status, refusals::specs::Refusals::written))]
pub fn islow_block_12bit(input: &[i16], output: &mut [u16]) -> Result<(), Refusal>
    ensures value { status_of result ≡ status (inverse_tests 64 input.now output.old) }
    ensures output_after { output.new ≡ written (status_of result) (block12bit eight input.now) output.old }
{
    let input = input.as_array::<64>().ok_or(Refusal::Block)?;
    Refusal::Output.unless(output.len() == 64)?;
    rows_8(&islow_columns::<8>(input, PASS1_SHIFT_12), output);
    Ok(())
}

// The 4×4 block.
#[tactic(auto, unfolding(refusals::specs::Refusals::status, refusals::specs::Refusals::written))]
pub fn islow_block_12bit_4x4(input: &[i16], output: &mut [u16]) -> Result<(), Refusal>
    ensures value { status_of result ≡ status (inverse_tests 16 input.now output.old) }
    ensures output_after { output.new ≡ written (status_of result) (block12bit four input.now) output.old }
{
    let input = input.as_array().ok_or(Refusal::Block)?;
    Refusal::Output.unless(output.len() == 16)?;
    rows_4(&columns_4(input), output);
    Ok(())
}

// The 2×2 block.
#[tactic(auto, unfolding(refusals::specs::Refusals::status, refusals::specs::Refusals::written))]
pub fn islow_block_12bit_2x2(input: &[i16], output: &mut [u16]) -> Result<(), Refusal>
    ensures value { status_of result ≡ status (inverse_tests 4 input.now output.old) }
    ensures output_after { output.new ≡ written (status_of result) (block12bit two input.now) output.old }
{
    let input = input.as_array().ok_or(Refusal::Block)?;
    Refusal::Output.unless(output.len() == 4)?;
    rows_2(&columns_2(input), output);
    Ok(())
}
