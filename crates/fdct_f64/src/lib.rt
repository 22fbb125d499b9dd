// The f64 side of the guarded quantizer (transform.rs, `fdct_values_scalar` and `QuantizationDivisors`; document 01, "The guarded
// quantizer"): `fdct_8` over rows, then columns, and the divisors.
//
// The 1-D transform of Arai, Agui and Nakajima leaves output u larger by 2√2·AAN_SCALE[u]; the divisors take the scales of both
// directions off together with the quantizer. Each operation is rounded once, in the Rust's order.

#![tactic(auto)]

mod fdct_8;

ghost use Rattle.std.specs.Prelude.{◌≡◌, ◌+◌, ◌*◌, ◌<◌, [], length, get_or, slice_index, slice_index_or};
ghost use Rattle.refusals.specs.Numbers.{told};
ghost use Rattle.guarded_quantizer.specs.Divisors.{aan_scale, has_zero, reciprocal, reciprocals, made_divisors, zero_divisors, divisors_answer};
ghost use Rattle.std.specs.Float.{nan};
ghost use Rattle.lists.specs.Tab.{tab};
ghost use Rattle.guarded_quantizer.specs.Transform.{fdct8};
ghost use Rattle.guarded_quantizer.specs.Values.{row, fdct_values};

use crate::fdct_8::fdct_8;
use guarded_quantizer::QuantizationDivisors;
use refusals::Refusal;
use std::array;

// √2·cos(uπ/16), and 1 for u = 0.
const AAN_SCALE: [f64; 8] = [
    1.0,
    1.387_039_845_322_147_5,
    1.306_562_964_876_376_6,
    1.175_875_602_419_358_8,
    1.0,
    0.785_694_958_387_102_2,
    0.541_196_100_146_197_1,
    0.275_899_379_282_943_1,
];

// AAN_SCALE, as a value that a contract can speak of. Take it once, outside of loops: it is copied.
fn aan_scale() -> [f64; 8]
    ensures { result ≡ aan_scale }
{
    AAN_SCALE
}

// Whether a quantizer is 0. No branch for each, so that the compiler tests many at once.
pub fn has_zero(quant: &[u8]) -> bool
    requires { length quant.now ≡ 64 }
    ensures { result ≡ has_zero quant.now }
{
    let mut found = false;
    for q in quant {
        found |= *q == 0;
    }
    found
}

// The reciprocals of row v of a table. Of a row, with places known in advance, the compiler makes two divisions at once.
fn reciprocal_row(quant: &[u8; 64], v: usize) -> [f64; 8]
    requires { v < 8 }
    ensures { result ≡ tab 8 (λ u. reciprocal (slice_index quant.now (8 * v + u)) u v) }
{
    let scale = aan_scale();
    array::from_fn(|u| 1.0 / (8.0 * scale[u] * scale[v] * (quant[8 * v + u] as f64)))
}

fn reciprocals_of(quant: &[u8; 64]) -> [f64; 64]
    ensures { result ≡ reciprocals quant.now }
{
    let mut made = [0.0f64; 64];
    for v in 0..8 {
        let row = reciprocal_row(quant, v);
        for u in 0..8 {
            made[8 * v + u] = row[u];
        }
    }
    made
}

// `QuantizationDivisors::new`.
#[tactic(auto, unfolding(guarded_quantizer::specs::Divisors::divisors_answer, refusals::specs::Refusals::status, refusals::specs::Refusals::written))]
pub fn quantization_divisors(quant: &[u8]) -> Result<QuantizationDivisors, Refusal>
    ensures { told (made_divisors zero_divisors) result ≡ divisors_answer quant.now }
{
    let quant: &[u8; 64] = quant.try_into().map_err(|_| Refusal::Table)?;
    Refusal::ZeroQuantizer.unless(!has_zero(quant))?;
    Ok(QuantizationDivisors {
        reciprocals: reciprocals_of(quant),
    })
}

// Row y of a block, each sample less 128.
fn load_row(block: &[u8], y: usize) -> [f64; 8]
    requires block_len { length block.now ≡ 64 }
    requires y_bound { y < 8 }
    ensures { result ≡ row block.now y }
{
    array::from_fn(|x| (block[8 * y + x] as f64) - 128.0)
}

// The transform of each row.
fn fdct_rows(block: &[u8]) -> [[f64; 8]; 8]
    requires { length block.now ≡ 64 }
    ensures { result ≡ tab 8 (λ y. fdct8 (row block.now y)) }
{
    let mut rows = [[0.0f64; 8]; 8];
    for y in 0..8 {
        rows[y] = fdct_8(load_row(block, y));
    }
    rows
}

// Column u of what is given by its rows.
fn load_column(rows: &[[f64; 8]; 8], u: usize) -> [f64; 8]
    requires { u < 8 }
    ensures { result ≡ tab 8 (λ y. get_or (slice_index_or rows.now y []) u nan) }
{
    array::from_fn(|y| rows[y][u])
}

// `fdct_values_scalar`: the transform of the rows, then of the columns.
pub fn fdct_values(block: &[u8]) -> [f64; 64]
    requires { length block.now ≡ 64 }
    ensures { result ≡ fdct_values block.now }
{
    let rows = fdct_rows(block);
    let mut values = [0.0f64; 64];
    for u in 0..8 {
        let column = fdct_8(load_column(&rows, u));
        for v in 0..8 {
            values[8 * v + u] = column[v];
        }
    }
    values
}
