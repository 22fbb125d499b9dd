// The row pass of the 8-bit 8×8 block, the stores of its samples, and what the clamp did (idct.rs, `islow_block_rows`; document 01, "The
// inverse blocks"; document 02, card 4).
//
// The pass takes the columns' PASS1_BITS fraction bits and the 1/8 normalisation off. Where all that the columns gave fits 16 bits, as it
// does for nearly every block of a JPEG file, rows go by direct products and without the zero shortcut: their sums stay below 2^31, so
// that the full pass gives what the shortcut gives (`row-eight` of block/proofs/Row.antt). What it gives fits 16 bits too, being 18 bits
// less than 32, so samples and counts are made from numbers of 16 bits, eight at once. Other rows have the shortcut, which is not the full
// pass where that wraps; where none of the eight has it, samples and counts are made in the same way.
//
// Each column of samples is counted by itself, row by row, and then the eight columns are added up (`columns-counted` of
// block/proofs/Counts.antt): so the compiler counts eight columns at once, which it does not where counting shares a loop with the stores.
ghost use Rattle.std.specs.Prelude.{◌≡◌, refl, List, true, not, [], map, ◌+◌, ◌<◌, ◌≤◌, pos, T, length, get_or};
ghost use Rattle.integers.specs.Fits16.{Fits16};
ghost use Rattle.integers.specs.Linear.{zero_at};
ghost use Rattle.lists.specs.Every.{every, Every};
ghost use Rattle.lists.specs.Tab.{tab};
ghost use Rattle.passes.specs.Passes.{eight, row_pass};
ghost use Rattle.block.specs.Block.{row_of, row_samples, valued, column};
ghost use Rattle.block.specs.Clamped.{itself};
ghost use Rattle.clamping.specs.Clamping.{sample_u8};
ghost use Rattle.clamping.specs.Counts.{counted, tally_one};
ghost use Rattle.clamping.specs.Rule.{rule_u8};

use crate::cut::narrow_8;
use block_access::fit_16::columns_fit;
use block_access::number::Number;
use block_access::sampled::Sampled;
use block_access::{load_row, put_row};
use islow::direct::islow_1d_direct;
use passes::zero_shortcut::{ac_is_zero, islow_row};
use passes::{PASS2_SHIFT, descale_8, islow_pass2};

// Columns of numbers that fit 16 bits, cut to these: so the compiler loads two rows for one instruction of two products.
fn narrow_columns(w: &[[i32; 8]; 8]) -> [[i16; 8]; 8]
    requires { Every (Every Fits16) w.now }
    ensures { result ≡ w.now }
{
    let mut r = [[0i16; 8]; 8];
    for column in 0..8 {
        r[column] = narrow_8(w[column]);
    }
    r
}

fn widen_8<T: Number>(p: [T; 8]) -> [i32; 8]
    ensures { result ≡ T.values p }
{
    let mut r = [0i32; 8];
    for k in 0..8 {
        r[k] = p[k].widen();
    }
    r
}

// The rows of numbers that fit 16 bits. Into the caller's array, as below: returned by one of two calls, it would be copied once more.
fn pass_rows_as_i16(w: &[[i32; 8]; 8], r: &mut [[i16; 8]; 8])
    requires { Every (Every Fits16) w.now }
    ensures { r.new ≡ tab 8 (λ y. row_pass eight (row_of w.now y)) }
{
    let cut = narrow_columns(w);
    for y in 0..8 {
        r[y] = narrow_8(descale_8(islow_1d_direct(widen_8(load_row(&cut, y))), PASS2_SHIFT));
    }
}

// Whether no row has the zero shortcut. No branch for each, so that the compiler tests several at once.
fn no_shortcut(w: &[[i32; 8]; 8]) -> bool
    ensures { result ≡ every (λ p. not (zero_at eight.ac p)) (tab 8 (row_of w.now)) }
{
    let mut all = true;
    for y in 0..8 {
        all = !ac_is_zero(load_row(w, y)) & all;
    }
    all
}

// The rows of any 32-bit numbers of which none has the zero shortcut.
fn full_rows(w: &[[i32; 8]; 8], r: &mut [[i16; 8]; 8])
    requires { T (every (λ p. not (zero_at eight.ac p)) (tab 8 (row_of w.now))) }
    ensures { r.new ≡ tab 8 (λ y. row_pass eight (row_of w.now y)) }
{
    for y in 0..8 {
        r[y] = narrow_8(islow_pass2(load_row(w, y)));
    }
}

// The rows, where they fit 16 bits; the answer says whether they do. They do but for those that have the zero shortcut, of numbers beyond
// 16 bits.
fn pass_rows(w: &[[i32; 8]; 8], r: &mut [[i16; 8]; 8]) -> bool
    ensures { result ≡ true → r.new ≡ tab 8 (λ y. row_pass eight (row_of w.now y)) }
{
    if columns_fit(w) {
        pass_rows_as_i16(w, r);
        return true;
    }
    if no_shortcut(w) {
        full_rows(w, r);
        return true;
    }
    false
}

// A number before the clamp that is counted.
trait Counted: Number + Sampled<Sample = u8> {
    ghost clamps: { (q : List Self) → map Self.clamp q ≡ map sample_u8 (Self.values q) };
}

impl Counted for i16 {
    ghost clamps = { λ q. refl };
}

impl Counted for i32 {
    ghost clamps = { λ q. refl };
}

// Both counts of column x, in one number.
fn tally_column<T: Number>(r: &[[T; 8]; 8], x: usize) -> u16
    requires { x < 8 }
    ensures value { result ≡ counted tally_one (column T.values r.now x) }
    ensures upper_bound { result ≤ 2048 }
{
    let mut t = 0u16;
    for y in 0..8 {
        t += r[y][x].tally();
    }
    t
}

// The samples of rows that were passed over, and both counts. Every row is passed over before one is stored: the compiler cannot know that
// the output is apart from what is read, and so passes over several rows at once. The columns are not read: they say what the rows are of.
fn put_rows<T: Counted>(w: &[[i32; 8]; 8], passed: &[[T; 8]; 8], output: &mut [u8]) -> u32
    requires passed_value { valued T.values passed.now ≡ tab 8 (λ y. row_pass eight (row_of w.now y)) }
    requires output_len { length output.old ≡ 64 }
    ensures value { result ≡ counted tally_one (row_samples (row_pass eight) itself 8 w.now) }
    ensures output_after { output.new ≡ row_samples (row_pass eight) sample_u8 8 w.now }
{
    for row in 0..8 {
        put_row(output, row * 8, &passed[row]);
    }
    let mut t = 0u16;
    for x in 0..8 {
        t += tally_column(passed, x);
    }
    u32::from(t)
}

// The rows of any 32-bit numbers, each with its zero shortcut.
fn pass_rows_i32(w: &[[i32; 8]; 8]) -> [[i32; 8]; 8]
    ensures { result ≡ tab 8 (λ y. row_pass eight (row_of w.now y)) }
{
    let mut r = [[0i32; 8]; 8];
    for y in 0..8 {
        r[y] = islow_row(load_row(w, y));
    }
    r
}

// The same of any 32-bit numbers.
fn rows_i32(w: &[[i32; 8]; 8], output: &mut [u8]) -> u32
    requires { length output.old ≡ 64 }
    ensures value { result ≡ counted tally_one (row_samples (row_pass eight) itself 8 w.now) }
    ensures output_after { output.new ≡ row_samples (row_pass eight) sample_u8 8 w.now }
{
    put_rows(w, &pass_rows_i32(w), output)
}

// The samples of what is given by its columns; the answer has both counts in one number (`tally_one`).
pub fn rows(w: &[[i32; 8]; 8], output: &mut [u8]) -> u32
    requires { length output.old ≡ 64 }
    ensures value { result ≡ counted tally_one (row_samples (row_pass eight) itself 8 w.now) }
    ensures output_after { output.new ≡ row_samples (row_pass eight) sample_u8 8 w.now }
{
    let mut passed = [[0i16; 8]; 8];
    if pass_rows(w, &mut passed) {
        return put_rows(w, &passed, output);
    }
    rows_i32(w, output)
}
