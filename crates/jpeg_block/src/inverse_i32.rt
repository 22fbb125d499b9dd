// The inverse blocks of 32-bit coefficients (crate idct_8x8), with a place for the counts.
ghost use Rattle.std.specs.Prelude.{◌≡◌, ◌++◌, length};
ghost use Rattle.passes.specs.Passes.{eight};
ghost use Rattle.block.specs.Block.{block, first_rows, inverse_tests};
ghost use Rattle.block.specs.Clamped.{block_raised, block_lowered};
ghost use Rattle.refusals.specs.Refusals.{status, written};
ghost use Rattle.jpeg_block.specs.Counts.{counts_tests, counts_left};

use crate::counts::{block_room, put_counts};
use idct_8x8::{islow_block_i32, islow_block_top_half_i32};

#[tactic(auto, unfolding(refusals::specs::Refusals::status, refusals::specs::Refusals::written))]
#[unsafe(no_mangle)]
pub extern "C" fn jpeg_block_islow_block_i32(
    input: &[i32],
    output: &mut [u8],
    counts: &mut [u32],
) -> u32
    ensures value { result ≡ status (inverse_tests 64 input.now output.old ++ counts_tests (length counts.old)) }
    ensures output_after { output.new ≡ written result (block eight input.now) output.old }
    ensures counts_after { counts.new ≡ written result (counts_left (block_raised eight input.now) (block_lowered eight input.now) counts.old) counts.old }
{
    if let Err(refusal) = block_room(input.len(), output.len(), 64, counts.len()) {
        return refusal.number();
    }
    match islow_block_i32(input, output) {
        Ok(clamped) => {
            put_counts(clamped, counts);
            0
        }
        Err(refusal) => refusal.number(),
    }
}

#[tactic(auto, unfolding(refusals::specs::Refusals::status, refusals::specs::Refusals::written))]
#[unsafe(no_mangle)]
pub extern "C" fn jpeg_block_islow_block_top_half_i32(
    input: &[i32],
    output: &mut [u8],
    counts: &mut [u32],
) -> u32
    ensures value { result ≡ status (inverse_tests 64 input.now output.old ++ counts_tests (length counts.old)) }
    ensures output_after { output.new ≡ written result (block eight (first_rows 4 input.now)) output.old }
    ensures counts_after { counts.new ≡ written result (counts_left (block_raised eight (first_rows 4 input.now)) (block_lowered eight (first_rows 4 input.now)) counts.old) counts.old }
{
    if let Err(refusal) = block_room(input.len(), output.len(), 64, counts.len()) {
        return refusal.number();
    }
    match islow_block_top_half_i32(input, output) {
        Ok(clamped) => {
            put_counts(clamped, counts);
            0
        }
        Err(refusal) => refusal.number(),
    }
}
