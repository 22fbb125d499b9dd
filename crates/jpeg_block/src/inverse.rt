// The inverse blocks of 16-bit coefficients (crates idct_8x8, idct_reduced and idct_12bit), those of 8 bits with a place for the counts.
ghost use Rattle.std.specs.Prelude.{◌≡◌, ◌++◌, length};
ghost use Rattle.passes.specs.Passes.{eight, four, two};
ghost use Rattle.block.specs.Block.{block, block12bit, first_rows, inverse_tests};
ghost use Rattle.block.specs.Clamped.{block_raised, block_lowered};
ghost use Rattle.refusals.specs.Refusals.{status, written};
ghost use Rattle.jpeg_block.specs.Counts.{counts_tests, counts_left};

use crate::counts::{block_room, put_counts};
use crate::place::status;
use idct_8x8::{islow_block, islow_block_top_half};
use idct_12bit::{islow_block_12bit, islow_block_12bit_2x2, islow_block_12bit_4x4};
use idct_reduced::{islow_block_2x2, islow_block_4x4};

#[tactic(auto, unfolding(refusals::specs::Refusals::status, refusals::specs::Refusals::written))]
#[unsafe(no_mangle)]
pub extern "C" fn jpeg_block_islow_block(
    input: &[i16],
    output: &mut [u8],
    counts: &mut [u32],
) -> u32
    ensures value { result ≡ status (inverse_tests 64 input.now output.old ++ counts_tests (length counts.old)) }
    ensures output_after { output.new ≡ written result (block eight input.now) output.old }
    ensures counts_after { counts.new ≡ written result (counts_left (block_raised eight input.now) (block_lowered eight input.now) counts.old) counts.old }
{
    if let Err(refusal) = block_room(input.len(), output.len(), 64, counts.len()) {
        return refusal.number();
    }
    match islow_block(input, output) {
        Ok(clamped) => {
            put_counts(clamped, counts);
            0
        }
        Err(refusal) => refusal.number(),
    }
}

#[tactic(auto, unfolding(refusals::specs::Refusals::status, refusals::specs::Refusals::written))]
#[unsafe(no_mangle)]
pub extern "C" fn jpeg_block_islow_block_top_half(
    input: &[i16],
    output: &mut [u8],
    counts: &mut [u32],
) -> u32
    ensures value { result ≡ status (inverse_tests 64 input.now output.old ++ counts_tests (length counts.old)) }
    ensures output_after { output.new ≡ written result (block eight (first_rows 4 input.now)) output.old }
    ensures counts_after { counts.new ≡ written result (counts_left (block_raised eight (first_rows 4 input.now)) (block_lowered eight (first_rows 4 input.now)) counts.old) counts.old }
{
    if let Err(refusal) = block_room(input.len(), output.len(), 64, counts.len()) {
        return refusal.number();
    }
    match islow_block_top_half(input, output) {
        Ok(clamped) => {
            put_counts(clamped, counts);
            0
        }
        Err(refusal) => refusal.number(),
    }
}

#[tactic(auto, unfolding(refusals::specs::Refusals::status, refusals::specs::Refusals::written))]
#[unsafe(no_mangle)]
pub extern "C" fn jpeg_block_islow_block_4x4(
    input: &[i16],
    output: &mut [u8],
    counts: &mut [u32],
) -> u32
    ensures value { result ≡ status (inverse_tests 16 input.now output.old ++ counts_tests (length counts.old)) }
    ensures output_after { output.new ≡ written result (block four input.now) output.old }
    ensures counts_after { counts.new ≡ written result (counts_left (block_raised four input.now) (block_lowered four input.now) counts.old) counts.old }
{
    if let Err(refusal) = block_room(input.len(), output.len(), 16, counts.len()) {
        return refusal.number();
    }
    match islow_block_4x4(input, output) {
        Ok(clamped) => {
            put_counts(clamped, counts);
            0
        }
        Err(refusal) => refusal.number(),
    }
}

#[tactic(auto, unfolding(refusals::specs::Refusals::status, refusals::specs::Refusals::written))]
#[unsafe(no_mangle)]
pub extern "C" fn jpeg_block_islow_block_2x2(
    input: &[i16],
    output: &mut [u8],
    counts: &mut [u32],
) -> u32
    ensures value { result ≡ status (inverse_tests 4 input.now output.old ++ counts_tests (length counts.old)) }
    ensures output_after { output.new ≡ written result (block two input.now) output.old }
    ensures counts_after { counts.new ≡ written result (counts_left (block_raised two input.now) (block_lowered two input.now) counts.old) counts.old }
{
    if let Err(refusal) = block_room(input.len(), output.len(), 4, counts.len()) {
        return refusal.number();
    }
    match islow_block_2x2(input, output) {
        Ok(clamped) => {
            put_counts(clamped, counts);
            0
        }
        Err(refusal) => refusal.number(),
    }
}

#[unsafe(no_mangle)]
pub extern "C" fn jpeg_block_islow_block_12bit(input: &[i16], output: &mut [u16]) -> u32
    ensures value { result ≡ status (inverse_tests 64 input.now output.old) }
    ensures output_after { output.new ≡ written result (block12bit eight input.now) output.old }
{
    status(islow_block_12bit(input, output))
}

#[unsafe(no_mangle)]
pub extern "C" fn jpeg_block_islow_block_12bit_4x4(input: &[i16], output: &mut [u16]) -> u32
    ensures value { result ≡ status (inverse_tests 16 input.now output.old) }
    ensures output_after { output.new ≡ written result (block12bit four input.now) output.old }
{
    status(islow_block_12bit_4x4(input, output))
}

#[unsafe(no_mangle)]
pub extern "C" fn jpeg_block_islow_block_12bit_2x2(input: &[i16], output: &mut [u16]) -> u32
    ensures value { result ≡ status (inverse_tests 4 input.now output.old) }
    ensures output_after { output.new ≡ written result (block12bit two input.now) output.old }
{
    status(islow_block_12bit_2x2(input, output))
}
