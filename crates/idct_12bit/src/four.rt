// The columns and rows of the 12-bit 4×4 block (idct.rs, `islow_block_12bit_4x4`; document 01, "The inverse blocks").
//
// The columns go at 32 bits, the rows at 64; nothing wraps (`four-apart` of proofs/Apart.antt, `exact-four` of block/proofs/Exact.antt).
// Row 4 is not read. Column 4 is loaded with the others, so that the compiler passes over several columns at once; what comes of it the
// row pass ignores.
ghost use Rattle.std.specs.Prelude.{◌≡◌, length};
ghost use Rattle.std.specs.Int.{w64};
ghost use Rattle.integers.specs.Fits16.{Fits16};
ghost use Rattle.lists.specs.Every.{Every};
ghost use Rattle.lists.specs.Tab.{tab};
ghost use Rattle.gains.specs.Gains.{gains4};
ghost use Rattle.clamping.specs.Clamping.{sample12bit};
ghost use Rattle.passes.specs.Passes.{pass};
ghost use Rattle.block.specs.Block.{columns, row_of, row_samples};

use crate::passes_12bit::{
    PASS1_SHIFT_12_4X4, PASS2_SHIFT_12_4X4, add_each, descale_each, widen_8,
};
use block_access::{load_column_4, load_row, put_row};
use idct_reduced::pass_4;
use islow::reduced::islow_1d_4;
use wrapping::Wrapping;

// A column of 16-bit numbers, at 32 bits. 16384·p0 is a multiple of 2^13: scaled down it is 2·p0, exactly, and what the other entries
// make fits 32 bits.
fn column_4(p: [i32; 8]) -> [i32; 4]
    requires { Every Fits16 p }
    ensures { result ≡ pass w64 gains4 13 p }
{
    let mut rest = p;
    rest[0] = 0;
    let mut q = pass_4(rest, PASS1_SHIFT_12_4X4);
    add_each(&mut q, p[0].add(p[0]));
    q
}

pub fn columns_4(input: &[i16; 64]) -> [[i32; 4]; 8]
    ensures { result ≡ columns (pass w64 gains4 13) input.now }
{
    let mut w = [[0i32; 4]; 8];
    for u in 0..8 {
        w[u] = column_4(load_column_4(input, u));
    }
    w
}

fn row_4(p: [i64; 8]) -> [i64; 4]
    ensures { result ≡ pass w64 gains4 18 p }
{
    let mut q = islow_1d_4(p);
    descale_each(&mut q, PASS2_SHIFT_12_4X4);
    q
}

// The four rows after their pass: all before any sample is stored, so that no store stands between them.
fn pass_rows_4(w: &[[i32; 4]; 8]) -> [[i64; 4]; 4]
    ensures { result ≡ tab 4 (λ y. pass w64 gains4 18 (row_of w.now y)) }
{
    let mut r = [[0i64; 4]; 4];
    for y in 0..4 {
        r[y] = row_4(widen_8(load_row(w, y)));
    }
    r
}

pub fn rows_4(w: &[[i32; 4]; 8], output: &mut [u16])
    requires { length output.old ≡ 16 }
    ensures { output.new ≡ row_samples (pass w64 gains4 18) sample12bit 4 w.now }
{
    let r = pass_rows_4(w);
    for y in 0..4 {
        put_row(output, y * 4, &r[y]);
    }
}
