// The columns and rows of the 8-bit 2×2 block (idct.rs, `islow_block_2x2`; document 01, "The inverse blocks").
//
// Only rows 0, 1, 3, 5, 7 are read. Columns 2, 4, 6 are loaded with the others, so that the compiler passes over several columns at once;
// what comes of them the row pass ignores. The column pass has no zero shortcut: of 16-bit numbers the full pass gives the same
// (`column-two` of block/proofs/Column.antt), and the loop has no branch. Nor has the row pass where what the columns gave fits 16 bits
// (`row-two` of block/proofs/Row.antt). Its first number would do for that; a test of all keeps all columns in one loop. Other rows have the
// shortcut, which is not the full pass where that wraps.
ghost use Rattle.std.specs.Prelude.{◌≡◌, map, ◌<◌, ◌≤◌, length};
ghost use Rattle.std.specs.Int.{w32};
ghost use Rattle.integers.specs.Fits16.{Fits16, fits16};
ghost use Rattle.integers.specs.Linear.{zero_at};
ghost use Rattle.lists.specs.Every.{every, Every};
ghost use Rattle.gains.specs.Gains.{gains2};
ghost use Rattle.clamping.specs.Clamping.{sample_u8};
ghost use Rattle.clamping.specs.Rule.{is_sample};
ghost use Rattle.clamping.specs.Counts.{counted, tally_one};
ghost use Rattle.passes.specs.Passes.{two, pass, column_pass, row_pass};
ghost use Rattle.block.specs.Block.{row_of, columns, row_samples};
ghost use Rattle.block.specs.Clamped.{itself};

use block_access::fit_16::columns_fit;
use block_access::{load_column_2, load_row, put_row};
use clamping::tally::tally_i32;
use islow::reduced::islow_1d_2;
use passes::zero_shortcut::DC_SHIFT;
use passes::{PASS1_SHIFT, PASS2_SHIFT};
use scaling::descale_by;
use wrapping::Wrapping;

// Whether the entries besides p[0] that the 2-point transform reads are zero.
fn ac_is_zero_2(p: [i32; 8]) -> bool
    ensures { result ≡ zero_at two.ac p }
{
    (p[1] | (p[3] | (p[5] | p[7]))) == 0
}

// The 2-point transform, each output scaled down.
fn pass_2(p: [i32; 8], shift: u32) -> [i32; 2]
    requires { (1 ≤ shift) × (shift ≤ 31) }
    ensures { result ≡ pass w32 gains2 shift p }
{
    let v = islow_1d_2(p);
    [descale_by(v[0], shift), descale_by(v[1], shift)]
}

pub fn columns_2(input: &[i16]) -> [[i32; 2]; 8]
    requires { length input.now ≡ 64 }
    ensures { result ≡ columns (column_pass two) input.now }
{
    let mut w = [[0i32; 2]; 8];
    for u in 0..8 {
        w[u] = pass_2(load_column_2(input, u), PASS1_SHIFT + 2);
    }
    w
}

// A row of columns that fit 16 bits, before the clamp.
fn full_row_2(w: &[[i32; 2]; 8], y: usize) -> [i32; 2]
    requires y_bound { y < 2 }
    requires every { Every (Every Fits16) w.now }
    ensures { result ≡ row_pass two (row_of w.now y) }
{
    pass_2(load_row(w, y), PASS2_SHIFT + 2)
}

// A row before the clamp, with the zero shortcut.
fn row_2(p: [i32; 8]) -> [i32; 2]
    ensures { result ≡ row_pass two p }
{
    if ac_is_zero_2(p) {
        return [descale_by(p[0], DC_SHIFT); 2];
    }
    pass_2(p, PASS2_SHIFT + 2)
}

// Whether a sum is a sample as it is.
fn is_sample(sum: i32) -> bool
    ensures { result ≡ is_sample sum }
{
    (sum >= 0) & (sum <= 255)
}

// Both counts of four numbers, in one (`tally_one`).
fn tally_4(q: [i32; 4]) -> u32
    ensures { result ≡ counted tally_one q }
{
    tally_i32(q[0]) + tally_i32(q[1]) + tally_i32(q[2]) + tally_i32(q[3])
}

// Writes the samples of q; the answer has both counts in one number. Where all four sums are samples as they are, which one `|`
// tells, nothing is clamped and nothing counted.
fn put_2(output: &mut [u8], q: [i32; 4]) -> u32
    requires { length output.old ≡ 4 }
    ensures value { result ≡ counted tally_one q }
    ensures output_after { output.new ≡ map sample_u8 q }
{
    let a = q[0].add(128);
    let b = q[1].add(128);
    let c = q[2].add(128);
    let d = q[3].add(128);
    if is_sample(a | (b | (c | d))) {
        output[0] = a as u8;
        output[1] = b as u8;
        output[2] = c as u8;
        output[3] = d as u8;
        return 0;
    }
    put_row(output, 0, &q);
    tally_4(q)
}

// The samples of what is given by its columns, and both counts.
pub fn rows_2(w: &[[i32; 2]; 8], output: &mut [u8]) -> u32
    requires { length output.old ≡ 4 }
    ensures value { result ≡ counted tally_one (row_samples (row_pass two) itself 2 w.now) }
    ensures output_after { output.new ≡ row_samples (row_pass two) sample_u8 2 w.now }
{
    if columns_fit(w) {
        let q = full_row_2(w, 0);
        let r = full_row_2(w, 1);
        return put_2(output, [q[0], q[1], r[0], r[1]]);
    }
    let q = row_2(load_row(w, 0));
    let r = row_2(load_row(w, 1));
    put_2(output, [q[0], q[1], r[0], r[1]])
}
