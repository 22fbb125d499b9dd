// The reduced 8-bit ISLOW inverse blocks, 4×4 and 2×2, of 16-bit coefficients (idct.rs, `islow_block_4x4` and `islow_block_2x2`; document
// 01, "The inverse blocks"); and the 4-point pass at 32 bits, which the 12-bit 4×4 block shares.
//
// Columns first, then rows, as at 8×8, with the 4- and 2-point transforms; these scale by 2 and 4 more than the 8-point one, and so the
// shifts are 1 and 2 more. Arithmetic wraps modulo 2^32, as document 01 has it; of 16-bit numbers a column's zero shortcut is the full
// pass (`column-four`, `column-two` of block/proofs/Column.antt). Rows that a size ignores are not loaded (`load_column_4`,
// `load_column_2`), and neither they nor its columns play a part (`four-reads`, `two-reads` of block/proofs/Unread.antt). A block of which
// DC alone is not zero is cut short (`block_access::level`).
//
// Each entry answers its refusal, 1 for an input not of 64 places, then 3 for an output of the wrong length, and then leaves the output as
// it was; or how many samples the clamp raised to 0 and how many it lowered to 255 (document 02, card 4), and then the output holds the
// samples.

#![tactic(auto)]

mod four;
mod two;

ghost use Rattle.std.specs.Prelude.{◌≡◌, ◌≤◌, length};
ghost use Rattle.std.specs.Int.{w32};
ghost use Rattle.gains.specs.Gains.{gains4};
ghost use Rattle.passes.specs.Passes.{pass, four, two};
ghost use Rattle.block.specs.Block.{block, inverse_tests};
ghost use Rattle.clamping.specs.Counts.{counted, tally_one};
ghost use Rattle.block.specs.Clamped.{unclamped, block_raised, block_lowered, no_counts, clamped_answer};
ghost use Rattle.refusals.specs.Refusals.{written};
ghost use Rattle.refusals.specs.Numbers.{status_of, told};

use crate::four::{columns_4, rows_4};
use crate::two::{columns_2, rows_2};
use block::Clamped;
use block_access::clamped;
use block_access::level::{all_zero, put_level};
use islow::reduced::islow_1d_4;
use refusals::Refusal;
use scaling::descale_by;

// The 4-point transform, each output scaled down.
pub fn pass_4(p: [i32; 8], shift: u32) -> [i32; 4]
    requires { (1 ≤ shift) × (shift ≤ 31) }
    ensures { result ≡ pass w32 gains4 shift p }
{
    let v = islow_1d_4(p);
    [
        descale_by(v[0], shift),
        descale_by(v[1], shift),
        descale_by(v[2], shift),
        descale_by(v[3], shift),
    ]
}

// The samples of the 4×4 block. By itself, as a large array costs time where a function begins.
fn write_full_4x4(input: &[i16], output: &mut [u8]) -> u32
    requires { (length input.now ≡ 64) × (length output.old ≡ 16) }
    ensures value { result ≡ counted tally_one (unclamped four input.now) }
    ensures output_after { output.new ≡ block four input.now }
{
    rows_4(&columns_4(input), output)
}

// The samples of the 4×4 block, for the entry and for a plane; the answer has both counts in one number (`tally_one`). So they are handed on
// in a register: a struct goes through memory, where two counts written one by one are slow to read as one.
pub fn write_4x4(input: &[i16], output: &mut [u8]) -> u32
    requires { (length input.now ≡ 64) × (length output.old ≡ 16) }
    ensures value { result ≡ counted tally_one (unclamped four input.now) }
    ensures output_after { output.new ≡ block four input.now }
{
    if all_zero(&input[1..64]) { // 4×4
        // With its length named the compiler stores the 16 samples at once.
        return put_level(&mut output[..16], i32::from(input[0]));
    }
    write_full_4x4(input, output)
}

// The 4×4 block.
#[tactic(auto, unfolding(refusals::specs::Refusals::status, refusals::specs::Refusals::written))]
pub fn islow_block_4x4(input: &[i16], output: &mut [u8]) -> Result<Clamped, Refusal>
    ensures value { told no_counts result ≡ clamped_answer (inverse_tests 16 input.now output.old) (block_raised four input.now) (block_lowered four input.now) }
    ensures output_after { output.new ≡ written (status_of result) (block four input.now) output.old }
{
    let input = input.as_array::<64>().ok_or(Refusal::Block)?;
    Refusal::Output.unless(output.len() == 16)?;
    Ok(clamped(write_4x4(input, output)))
}

// The samples of the 2×2 block.
pub fn write_2x2(input: &[i16], output: &mut [u8]) -> u32
    requires { (length input.now ≡ 64) × (length output.old ≡ 4) }
    ensures value { result ≡ counted tally_one (unclamped two input.now) }
    ensures output_after { output.new ≡ block two input.now }
{
    rows_2(&columns_2(input), output)
}

// The same, cut short where DC alone is not zero. A block that has AC has nearly always one of the two numbers tested first. The test stands
// here and not in `write_2x2`, where numbers that it loads one by one would keep the columns from being loaded eight at once.
fn write_2x2_short(input: &[i16; 64], output: &mut [u8]) -> u32
    requires { length output.old ≡ 4 }
    ensures counts { result ≡ counted tally_one (unclamped two input.now) }
    ensures output_after { output.new ≡ block two input.now }
{
    if (input[1] | input[8]) == 0 {
        if all_zero(&input[1..64]) { // 2×2
            return put_level(output, i32::from(input[0]));
        }
    }
    write_2x2(input, output)
}

// The 2×2 block.
#[tactic(auto, unfolding(refusals::specs::Refusals::status, refusals::specs::Refusals::written))]
pub fn islow_block_2x2(input: &[i16], output: &mut [u8]) -> Result<Clamped, Refusal>
    ensures value { told no_counts result ≡ clamped_answer (inverse_tests 4 input.now output.old) (block_raised two input.now) (block_lowered two input.now) }
    ensures output_after { output.new ≡ written (status_of result) (block two input.now) output.old }
{
    let input = input.as_array().ok_or(Refusal::Block)?;
    Refusal::Output.unless(output.len() == 4)?;
    Ok(clamped(write_2x2_short(input, output)))
}
