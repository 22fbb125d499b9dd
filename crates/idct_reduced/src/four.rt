// The columns and rows of the 8-bit 4×4 block (idct.rs, `column_4x4` and `row_4x4`; document 01, "The inverse blocks").
//
// Row 4 is not read. Column 4 is loaded with the others, so that the compiler passes over several columns at once; what comes of it the
// row pass ignores. The column pass has no zero shortcut: of 16-bit numbers the full pass gives the same (`column-four` of
// block/proofs/Column.antt), and the loop has no branch.
ghost use Rattle.std.specs.Prelude.{◌≡◌, ℕ, ◌<◌, ◌≤◌, ◌+◌, length, get_or, pos};
ghost use Rattle.lists.specs.Tab.{tab};
ghost use Rattle.integers.specs.Linear.{zero_at};
ghost use Rattle.clamping.specs.Clamping.{sample_u8};
ghost use Rattle.clamping.specs.Rule.{rule_u8};
ghost use Rattle.clamping.specs.Counts.{counted, tally_one};
ghost use Rattle.passes.specs.Passes.{four, column_pass, row_pass};
ghost use Rattle.block.specs.Block.{columns, row_samples};
ghost use Rattle.block.specs.Clamped.{itself};

use crate::pass_4;
use block_access::{load_column_4, load_row, put_row};
use clamping::tally::tally_i32;
use passes::zero_shortcut::DC_SHIFT;
use passes::{PASS1_SHIFT, PASS2_SHIFT};
use scaling::descale_by;

pub fn columns_4(input: &[i16]) -> [[i32; 4]; 8]
    requires { length input.now ≡ 64 }
    ensures { result ≡ columns (column_pass four) input.now }
{
    let mut w = [[0i32; 4]; 8];
    for u in 0..8 {
        w[u] = pass_4(load_column_4(input, u), PASS1_SHIFT + 1);
    }
    w
}

// Whether the entries besides p[0] that the 4-point transform reads are zero.
fn ac_is_zero_4(p: [i32; 8]) -> bool
    ensures { result ≡ zero_at four.ac p }
{
    (p[1] | (p[2] | (p[3] | (p[5] | (p[6] | p[7]))))) == 0
}

// The numbers of a row before the clamp, from p: with the zero shortcut. Into the caller's array, so that the compiler works on several rows
// at once.
fn row_4(q: &mut [i32; 4], p: [i32; 8])
    ensures { q.new ≡ row_pass four p }
{
    if ac_is_zero_4(p) {
        *q = [descale_by(p[0], DC_SHIFT); 4];
    } else {
        *q = pass_4(p, PASS2_SHIFT + 1);
    }
}

// Adds what each sample of a row adds to the counts to its column's number.
fn add_tallies(t: &mut [u32; 4], q: &[i32; 4])
    requires { (x : ℕ) → get_or t.old x 0 ≤ 1024 }
    ensures { t.new ≡ tab 4 (λ x. get_or t.old x 0 + tally_one (rule_u8 (get_or q.now x (pos 0)))) }
{
    for x in 0..4 {
        t[x] += tally_i32(q[x]);
    }
}

// The samples of what is given by its columns; the answer has both counts in one number (`tally_one`). They are added up column by column.
pub fn rows_4(w: &[[i32; 4]; 8], output: &mut [u8]) -> u32
    requires { length output.old ≡ 16 }
    ensures value { result ≡ counted tally_one (row_samples (row_pass four) itself 4 w.now) }
    ensures output_after { output.new ≡ row_samples (row_pass four) sample_u8 4 w.now }
{
    let mut t = [0u32; 4];
    for y in 0..4 {
        let mut q = [0i32; 4];
        row_4(&mut q, load_row(w, y));
        put_row(output, y * 4, &q);
        add_tallies(&mut t, &q);
    }
    t[0] + t[1] + t[2] + t[3]
}
