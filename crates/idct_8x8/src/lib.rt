// The 8-bit 8×8 ISLOW inverse blocks (idct.rs, `islow_block` and `islow_block_top_half`; document 01, "The inverse blocks"), of 16- and of
// 32-bit coefficients; and the column pass of 16-bit ones, which the 12-bit 8×8 block shares.
//
// Columns first, then rows. The column pass keeps PASS1_BITS fraction bits, the row pass takes them and the 1/8 normalisation off, and
// `sample_u8` shifts the level and clamps. Arithmetic wraps modulo 2^32, as document 01 has it; of 16-bit coefficients the column pass
// never wraps (`column-eight`, `columns-narrow` of block/proofs), so it goes by direct products and has no zero shortcut. A block of which
// DC alone is not zero is cut short (`block_access::level`).
//
// Each entry answers its refusal, 1 for an input not of 64 places, then 3 for an output not of 64, and then leaves the output as it was; or
// how many samples the clamp raised to 0 and how many it lowered to 255 (document 02, card 4), and then the output holds the samples.

#![tactic(auto)]

mod column_pass;
mod cut;
mod row_pass;

ghost use Rattle.std.specs.Prelude.{◌≡◌, ◌*◌, ◌≤◌, length, take};
ghost use Rattle.integers.specs.Fits16.{Fits16};
ghost use Rattle.lists.specs.Every.{Every};
ghost use Rattle.passes.specs.Passes.{eight};
ghost use Rattle.block.specs.Block.{block, first_rows, inverse_tests};
ghost use Rattle.clamping.specs.Counts.{counted, tally_one};
ghost use Rattle.block.specs.Clamped.{unclamped, block_raised, block_lowered, no_counts, clamped_answer};
ghost use Rattle.refusals.specs.Refusals.{written};
ghost use Rattle.refusals.specs.Numbers.{status_of, told};

pub use crate::column_pass::islow_columns;
use crate::column_pass::{columns_i32, narrow};
use crate::row_pass::rows;
use block::Clamped;
use block_access::clamped;
use block_access::fit_16::all_fit;
use block_access::level::{all_zero, put_level};
use passes::PASS1_SHIFT;
use refusals::Refusal;

// The samples of the first ROWS rows of a block of 16-bit numbers, the others counting as zero; the answer has both counts in one number
// (`tally_one`). So they are handed on in a register: a struct goes through memory, where two counts written one by one are slow to read as
// one. Each of these functions has at most one large array, which costs time where a function begins.
fn write_16<const ROWS: usize>(input: &[i16; 64], output: &mut [u8]) -> u32
    requires rows { ROWS ≤ 8 }
    requires output_len { length output.old ≡ 64 }
    ensures value { result ≡ counted tally_one (unclamped eight (first_rows ROWS input.now)) }
    ensures output_after { output.new ≡ block eight (first_rows ROWS input.now) }
{
    rows(&islow_columns::<ROWS>(input, PASS1_SHIFT), output)
}

// The same of numbers that fit 16 bits.
fn write_fitting<const ROWS: usize>(numbers: &[i32; 64], output: &mut [u8]) -> u32
    requires rows { ROWS ≤ 8 }
    requires every { Every Fits16 (take (8 * ROWS) numbers.now) }
    requires output_len { length output.old ≡ 64 }
    ensures value { result ≡ counted tally_one (unclamped eight (first_rows ROWS numbers.now)) }
    ensures output_after { output.new ≡ block eight (first_rows ROWS numbers.now) }
{
    write_16::<ROWS>(&narrow::<ROWS>(numbers), output)
}

// The same of any 32-bit numbers.
fn write_32<const ROWS: usize>(numbers: &[i32; 64], output: &mut [u8]) -> u32
    requires rows { ROWS ≤ 8 }
    requires output_len { length output.old ≡ 64 }
    ensures value { result ≡ counted tally_one (unclamped eight (first_rows ROWS numbers.now)) }
    ensures output_after { output.new ≡ block eight (first_rows ROWS numbers.now) }
{
    let mut w = [[0i32; 8]; 8];
    columns_i32::<ROWS>(numbers, &mut w);
    rows(&w, output)
}

// A block of 16-bit numbers.
fn write_i16_rows<const ROWS: usize>(input: &[i16; 64], output: &mut [u8]) -> u32
    requires rows { (1 ≤ ROWS) × (ROWS ≤ 8) }
    requires output_len { length output.old ≡ 64 }
    ensures value { result ≡ counted tally_one (unclamped eight (first_rows ROWS input.now)) }
    ensures output_after { output.new ≡ block eight (first_rows ROWS input.now) }
{
    if all_zero(&input[1..8 * ROWS]) {
        return put_level(output, i32::from(input[0]));
    }
    write_16::<ROWS>(input, output)
}

// A block of 32-bit numbers.
fn write_i32_rows<const ROWS: usize>(numbers: &[i32; 64], output: &mut [u8]) -> u32
    requires rows { (1 ≤ ROWS) × (ROWS ≤ 8) }
    requires output_len { length output.old ≡ 64 }
    ensures value { result ≡ counted tally_one (unclamped eight (first_rows ROWS numbers.now)) }
    ensures output_after { output.new ≡ block eight (first_rows ROWS numbers.now) }
{
    if all_zero(&numbers[1..8 * ROWS]) {
        // With its length named the compiler stores the 64 samples at once.
        return put_level(&mut output[..64], numbers[0]);
    }
    if all_fit(&numbers[..8 * ROWS]) {
        return write_fitting::<ROWS>(numbers, output);
    }
    write_32::<ROWS>(numbers, output)
}

// The samples of the 8×8 block of 32-bit numbers, for a plane and a search. The numbers come in an array, not in a slice, which is a struct
// and goes through memory.
pub fn write_i32(numbers: &[i32; 64], output: &mut [u8]) -> u32
    requires { (length numbers.now ≡ 64) × (length output.old ≡ 64) }
    ensures value { result ≡ counted tally_one (unclamped eight numbers.now) }
    ensures output_after { output.new ≡ block eight numbers.now }
{
    write_i32_rows::<8>(numbers, output)
}

// The 8×8 block.
#[tactic(auto, unfolding(refusals::specs::Refusals::status, refusals::specs::Refusals::written))]
pub fn islow_block(input: &[i16], output: &mut [u8]) -> Result<Clamped, Refusal>
    ensures value { told no_counts result ≡ clamped_answer (inverse_tests 64 input.now output.old) (block_raised eight input.now) (block_lowered eight input.now) }
    ensures output_after { output.new ≡ written (status_of result) (block eight input.now) output.old }
{
    let input = input.as_array().ok_or(Refusal::Block)?; // an input block not of its 64 places
    Refusal::Output.unless(output.len() == 64)?; // an output of the wrong length
    Ok(clamped(write_i16_rows::<8>(input, output)))
}

// The block whose rows 4..7 are zero, or count as zero: they are not read.
#[tactic(auto, unfolding(refusals::specs::Refusals::status, refusals::specs::Refusals::written))]
pub fn islow_block_top_half(input: &[i16], output: &mut [u8]) -> Result<Clamped, Refusal>
    ensures value { told no_counts result ≡ clamped_answer (inverse_tests 64 input.now output.old) (block_raised eight (first_rows 4 input.now)) (block_lowered eight (first_rows 4 input.now)) }
    ensures output_after { output.new ≡ written (status_of result) (block eight (first_rows 4 input.now)) output.old }
{
    let input = input.as_array().ok_or(Refusal::Block)?; // rows 4..7 too must be there, though they are not read
    Refusal::Output.unless(output.len() == 64)?; // all 64 samples are written
    Ok(clamped(write_i16_rows::<4>(input, output)))
}

// The 8×8 block of 32-bit numbers.
#[tactic(auto, unfolding(refusals::specs::Refusals::status, refusals::specs::Refusals::written))]
pub fn islow_block_i32(input: &[i32], output: &mut [u8]) -> Result<Clamped, Refusal>
    ensures value { told no_counts result ≡ clamped_answer (inverse_tests 64 input.now output.old) (block_raised eight input.now) (block_lowered eight input.now) }
    ensures output_after { output.new ≡ written (status_of result) (block eight input.now) output.old }
{
    let input = input.as_array().ok_or(Refusal::Block)?; // not of 64 numbers
    Refusal::Output.unless(output.len() == 64)?; // not of 64 samples
    Ok(clamped(write_i32_rows::<8>(input, output)))
}

// The block whose rows 4..7 are zero, or count as zero: they are not read.
#[tactic(auto, unfolding(refusals::specs::Refusals::status, refusals::specs::Refusals::written))]
pub fn islow_block_top_half_i32(input: &[i32], output: &mut [u8]) -> Result<Clamped, Refusal>
    ensures value { told no_counts result ≡ clamped_answer (inverse_tests 64 input.now output.old) (block_raised eight (first_rows 4 input.now)) (block_lowered eight (first_rows 4 input.now)) }
    ensures output_after { output.new ≡ written (status_of result) (block eight (first_rows 4 input.now)) output.old }
{
    let input = input.as_array().ok_or(Refusal::Block)?; // 32 numbers are read, but all 64 must be there
    Refusal::Output.unless(output.len() == 64)?; // 64 samples are written, of 32 numbers
    Ok(clamped(write_i32_rows::<4>(input, output)))
}
