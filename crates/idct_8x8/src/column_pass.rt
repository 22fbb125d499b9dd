// The column pass of the 8-bit 8×8 block (idct.rs, `islow_block_rows`; document 01, "The inverse blocks"), of a block's first ROWS rows: 8
// for the whole block, 4 for its top half. The number of rows is a constant, so that the compiler passes over several columns at once.
//
// Outputs keep PASS1_BITS fraction bits. Columns of numbers that fit 16 bits, as the products of a JPEG file's coefficients and divisors
// nearly always do, go by direct products and without the zero shortcut: their sums stay below 2^31, so that nothing wraps and the full
// pass gives what the shortcut gives (`column-eight` of block/proofs/Column.antt). Other numbers have the shortcut, which is not the
// full pass where that wraps: it is asked for first, of all columns at once, and where none has it the full pass tests nothing.
ghost use Rattle.std.specs.Prelude.{◌≡◌, ℕ, not, ◌<◌, ◌*◌, ◌≤◌, T, length, take};
ghost use Rattle.std.specs.Int.{w32};
ghost use Rattle.integers.specs.Fits16.{Fits16};
ghost use Rattle.integers.specs.Linear.{zero_at};
ghost use Rattle.lists.specs.Every.{every, Every};
ghost use Rattle.lists.specs.Tab.{tab};
ghost use Rattle.gains.specs.Gains.{gains};
ghost use Rattle.passes.specs.Passes.{eight, pass, column_pass};
ghost use Rattle.block.specs.Block.{column_of, columns, first_rows};

use crate::cut::to_i16;
use block_access::load_column;
use islow::direct::islow_1d_direct;
use passes::zero_shortcut::{ac_is_zero, islow_column};
use passes::{descale_8, islow_pass1};

// The columns of 16-bit numbers, each output scaled down by `shift` bits.
pub fn islow_columns<const ROWS: usize>(input: &[i16], shift: u32) -> [[i32; 8]; 8]
    requires input_len { length input.now ≡ 64 }
    requires rows { ROWS ≤ 8 }
    requires le_shift { (1 ≤ shift) × (shift ≤ 31) }
    ensures value { result ≡ columns (pass w32 gains shift) (first_rows ROWS input.now) }
    ensures by_index { (u : ℕ) → u < 8 → Every Fits16 (column_of (first_rows ROWS input.now) u) }
{
    let mut w = [[0i32; 8]; 8];
    for u in 0..8 {
        w[u] = descale_8(islow_1d_direct(load_column(input, ROWS, u)), shift);
    }
    w
}

// The first ROWS rows of numbers that fit 16 bits, cut to these; the other rows are zero.
pub fn narrow<const ROWS: usize>(numbers: &[i32; 64]) -> [i16; 64]
    requires rows { ROWS ≤ 8 }
    requires every { Every Fits16 (take (8 * ROWS) numbers.now) }
    ensures { result ≡ first_rows ROWS numbers.now }
{
    let mut cut = [0i16; 64];
    for i in 0..8 * ROWS {
        cut[i] = to_i16(numbers[i]);
    }
    cut
}

// Whether no column has the zero shortcut. No branch for each, so that the compiler tests several at once.
fn no_shortcut<const ROWS: usize>(input: &[i32; 64]) -> bool
    requires { ROWS ≤ 8 }
    ensures { result ≡ every (λ p. not (zero_at eight.ac p)) (tab 8 (column_of (first_rows ROWS input.now))) }
{
    let mut all = true;
    for u in 0..8 {
        all = !ac_is_zero(load_column(input, ROWS, u)) & all;
    }
    all
}

// The columns of a block of which none has the zero shortcut: nothing is tested here, so that the compiler passes over several at once.
fn full_columns<const ROWS: usize>(input: &[i32; 64], w: &mut [[i32; 8]; 8])
    requires rows { ROWS ≤ 8 }
    requires none { T (every (λ p. not (zero_at eight.ac p)) (tab 8 (column_of (first_rows ROWS input.now)))) }
    ensures { w.new ≡ columns (column_pass eight) (first_rows ROWS input.now) }
{
    for u in 0..8 {
        w[u] = islow_pass1(load_column(input, ROWS, u));
    }
}

// The columns of the first `rows` rows, each with its zero shortcut.
fn shortcut_columns(input: &[i32; 64], rows: usize, w: &mut [[i32; 8]; 8])
    requires { rows ≤ 8 }
    ensures { w.new ≡ columns (column_pass eight) (first_rows rows input.now) }
{
    for u in 0..8 {
        w[u] = islow_column(load_column(input, rows, u));
    }
}

// The columns of any 32-bit numbers, into the caller's array: returned by one of two calls, it would be copied once more.
pub fn columns_i32<const ROWS: usize>(input: &[i32; 64], w: &mut [[i32; 8]; 8])
    requires { ROWS ≤ 8 }
    ensures { w.new ≡ columns (column_pass eight) (first_rows ROWS input.now) }
{
    if no_shortcut::<ROWS>(input) {
        full_columns::<ROWS>(input, w);
    } else {
        shortcut_columns(input, ROWS, w);
    }
}
