// The inverse blocks' loads of columns and rows and stores of samples (idct.rs, `column_of`, `row_of` and the loops of the `islow_block`
// functions; document 01, "The inverse blocks").
//
// A block comes in natural order; what the column pass gives is held by columns. Nothing is computed here but what a block of DC alone
// gives (`level`): a number of 16 bits is loaded as it is (`Fits16`), `sample_u8` and `sample_12bit` clamp what is stored, and `clamped`
// takes two counts apart. A helper requires what its callers have tested; the entries refuse.

#![tactic(auto)]

pub mod fit_16;
pub mod level;
pub mod number;
pub mod sampled;

ghost use Rattle.std.specs.Prelude.{◌≡◌, map, ◌+◌, ◌*◌, ◌≤◌, ◌<◌, length, get_or, pos};
ghost use Rattle.std.proofs.Math.Seq.{paste};
ghost use Rattle.integers.specs.Fits16.{Fits16};
ghost use Rattle.lists.specs.Every.{Every};
ghost use Rattle.gains.specs.Gains.{skipped4, skipped2};
ghost use Rattle.block.specs.Block.{column_of, first_rows, row_at, without};
ghost use Rattle.block.specs.Clamped.{clamped_by};

use crate::number::Number;
use crate::sampled::Sampled;
use block::Clamped;

// Column u of a block's first `rows` rows; the rows below them are not read, and count as zero.
pub fn load_column<T: Number>(input: &[T], rows: usize, u: usize) -> [i32; 8]
    requires input_len { length input.now ≡ 64 }
    requires rows_bound { (rows ≤ 8) × (u < 8) }
    ensures value { result ≡ column_of (first_rows rows (T.values input.now)) u }
    ensures every { Every T.Fits result }
{
    let mut p = [0i32; 8];
    for v in 0..rows {
        p[v] = input[8 * v + u].widen();
    }
    p
}

// Entry v of column u.
pub fn coefficient(input: &[i16], v: usize, u: usize) -> i32
    requires input_len { length input.now ≡ 64 }
    requires v_bound { (v < 8) × (u < 8) }
    ensures value { result ≡ get_or input.now (8 * v + u) (pos 0) }
    ensures fits16 { Fits16 result }
{
    i32::from(input[8 * v + u])
}

// Column u for the 4-point transform, which ignores entry 4: it is not read.
pub fn load_column_4(input: &[i16], u: usize) -> [i32; 8]
    requires input_len { length input.now ≡ 64 }
    requires u_bound { u < 8 }
    ensures value { result ≡ without (pos 0) skipped4 (column_of input.now u) }
    ensures every { Every Fits16 result }
{
    [
        coefficient(input, 0, u),
        coefficient(input, 1, u),
        coefficient(input, 2, u),
        coefficient(input, 3, u),
        0,
        coefficient(input, 5, u),
        coefficient(input, 6, u),
        coefficient(input, 7, u),
    ]
}

// Column u for the 2-point transform: only entries 0, 1, 3, 5, 7 are read.
pub fn load_column_2(input: &[i16], u: usize) -> [i32; 8]
    requires input_len { length input.now ≡ 64 }
    requires u_bound { u < 8 }
    ensures value { result ≡ without (pos 0) skipped2 (column_of input.now u) }
    ensures every { Every Fits16 result }
{
    [
        coefficient(input, 0, u),
        coefficient(input, 1, u),
        0,
        coefficient(input, 3, u),
        0,
        coefficient(input, 5, u),
        0,
        coefficient(input, 7, u),
    ]
}

// Row y of what is given by its columns.
pub fn load_row<T: Copy, const N: usize>(w: &[[T; N]; 8], y: usize) -> [T; 8]
    requires { y < N }
    ensures { (d : T) → result ≡ row_at d w.now y }
{
    [
        w[0][y], w[1][y], w[2][y], w[3][y], w[4][y], w[5][y], w[6][y], w[7][y],
    ]
}

// Writes the samples of q from place `at` on, and no other place.
pub fn put_row<T: Sampled>(output: &mut [T::Sample], at: usize, q: &[T])
    requires { at + length q.now ≤ length output.old }
    ensures { output.new ≡ paste output.old at (map T.clamp q.now) (length q.now) }
{
    for k in 0..q.len() {
        output[at + k] = q[k].sample();
    }
}

// The answer of a block whose samples were written, of the number that has both counts in it (`tally_one`).
pub fn clamped(tally: u32) -> Clamped
    ensures { result ≡ clamped_by tally }
{
    Clamped {
        raised: tally % 256,
        lowered: tally / 256,
    }
}
