// The columns and rows of the 12-bit 2×2 block (idct.rs, `islow_block_12bit_2x2`; document 01, "The inverse blocks").
//
// Only rows and columns 0, 1, 3, 5, 7 are read, 25 numbers: the rows do not read what would come of the other columns, and zeros stand in
// their places. Both passes go at 64 bits, where nothing wraps (`Exact-two` of block/proofs/Exact.antt): with these gains the columns do
// not fit 32. What the rows give does (`row-small-two` of proofs/Small.antt).
ghost use Rattle.std.specs.Prelude.{◌≡◌, ◌≤◌, ◌<◌, ◌^◌, length, replicate, pos};
ghost use Rattle.std.specs.Int.{w64};
ghost use Rattle.integers.specs.Fits16.{Fits16};
ghost use Rattle.lists.specs.Every.{Every};
ghost use Rattle.gains.specs.Gains.{gains2, skipped2};
ghost use Rattle.clamping.specs.Clamping.{sample12bit};
ghost use Rattle.passes.specs.Passes.{pass};
ghost use Rattle.block.specs.Block.{columns, row_of, row_samples, without};
ghost use Rattle.block.specs.Bound.{AtMost};

use crate::passes_12bit::{PASS1_SHIFT_12_2X2, PASS2_SHIFT_12_2X2, descale_each, widen_8};
use crate::samples_12bit::put_row_small;
use block_access::{load_column_2, load_row};
use islow::reduced::islow_1d_2;

fn pass_2(p: [i64; 8], shift: u32) -> [i64; 2]
    requires { (1 ≤ shift) × (shift ≤ 63) }
    ensures { result ≡ pass w64 gains2 shift p }
{
    let mut q = islow_1d_2(p);
    descale_each(&mut q, shift);
    q
}

// A column of 16-bit numbers. What it gives has at most 33 bits.
fn column_2(p: [i32; 8]) -> [i64; 2]
    requires { Every Fits16 p }
    ensures value { result ≡ pass w64 gains2 14 p }
    ensures at_most { AtMost (2 ^ 32) result }
{
    pass_2(widen_8(p), PASS1_SHIFT_12_2X2)
}

// The columns that the rows read, and zeros for the others.
pub fn columns_2(input: &[i16; 64]) -> [[i64; 2]; 8]
    ensures value { result ≡ without (replicate 2 (pos 0)) skipped2 (columns (pass w64 gains2 14) input.now) }
    ensures every { Every (AtMost (2 ^ 32)) result }
{
    [
        column_2(load_column_2(input, 0)),
        column_2(load_column_2(input, 1)),
        [0; 2],
        column_2(load_column_2(input, 3)),
        [0; 2],
        column_2(load_column_2(input, 5)),
        [0; 2],
        column_2(load_column_2(input, 7)),
    ]
}

pub fn rows_2(w: &[[i64; 2]; 8], output: &mut [u16])
    requires output_len { length output.old ≡ 4 }
    requires every { Every (AtMost (2 ^ 32)) w.now }
    ensures { output.new ≡ row_samples (pass w64 gains2 19) sample12bit 2 w.now }
{
    for y in 0..2 {
        let q = pass_2(load_row(w, y), PASS2_SHIFT_12_2X2);
        put_row_small(output, y * 2, &q);
    }
}
