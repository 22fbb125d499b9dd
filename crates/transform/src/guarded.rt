// The coefficients of the guarded quantizer (transform.rs, `fdct_quantize` without its vector code; document 01, "The guarded quantizer").
//
// The f64 transform and one product give each coefficient, unless the product lies so near to a half that its rounding error could
// decide: there the canonical transform does.
ghost use Rattle.std.specs.Prelude.{◌≡◌, true, cond, ℕ, ◌+◌, ◌*◌, ◌/◌, ◌<◌, T, get_or, pos, ◌-ℤ◌};
ghost use Rattle.std.specs.Float.{nan, binary64};
ghost use Rattle.std.specs.Float.Ieee.{fits, mul};
ghost use Rattle.std.specs.Int.{w16};
ghost use Rattle.std.proofs.Common.{SFits};
ghost use Rattle.lists.specs.Tab.{tab};
ghost use Rattle.lists.specs.Below.{below};
ghost use Rattle.forward.specs.Forward.{scaled_sum};
ghost use Rattle.quantize.specs.Quantize.{coefficient};
ghost use Rattle.guarded_quantizer.specs.Binary64.{near_half, rounded_to_i16};
ghost use Rattle.guarded_quantizer.specs.Guarded.{guarded};
ghost use Rattle.transform.specs.Settled.{in_range, point, settled_point, by_value};

use crate::binary64::{near_half, round_to_i16};
use fdct::fdct_quantize_coefficient;
use fdct_f64::fdct_values;
use std::array;

// 2^36 + 32768.5. A value smaller than 32767 in absolute value, added to it, gives a sum from 2^36 to 2^37, where floats are 2^-16 apart: the lower
// 52 bits of the sum are the value + 32768.5 in units of 2^-16, at most one unit off (`settled-point` of crate guarded_quantizer).
const ROUNDING: f64 = 68_719_509_504.5;

fn canonical_coefficient(block: &[u8; 64], quantizer: u8, n: usize) -> i16
    requires { n < 64 }
    ensures value { result ≡ coefficient (scaled_sum 128 block.now n) quantizer }
    ensures sfits { SFits w16 result }
{
    fdct_quantize_coefficient(block, quantizer, n).unwrap()
}

// The coefficient n at any `scaled`, worked out from its bits.
fn exact_coefficient(scaled: f64, block: &[u8; 64], quantizer: u8, n: usize) -> i16
    requires { n < 64 }
    ensures value { result ≡ cond (near_half scaled) (coefficient (scaled_sum 128 block.now n) quantizer) (rounded_to_i16 scaled) }
    ensures sfits { SFits w16 result }
{
    if near_half(scaled) {
        return canonical_coefficient(block, quantizer, n);
    }
    round_to_i16(scaled)
}

// The coefficient n, of which `scaled` is the value times the reciprocal. One sum settles nearly every value without a mispredicted branch:
// where the rest is not at an end of its range, the value is not near a half, and the part above the rest is the value rounded. The few
// others go by the exact guard.
fn coefficient_of(scaled: f64, block: &[u8; 64], quantizer: u8, n: usize) -> i16
    requires { n < 64 }
    ensures value { result ≡ cond (near_half scaled) (coefficient (scaled_sum 128 block.now n) quantizer) (rounded_to_i16 scaled) }
    ensures sfits { SFits w16 result }
{
    if (-32767.0 < scaled) & (scaled < 32767.0) {
        let point: u64 = f64::to_bits(scaled + ROUNDING) % 0x10_0000_0000_0000;
        let rest = point % 0x1_0000;
        if (2 <= rest) & (rest <= 65534) {
            return (((point / 0x1_0000) as i32) - 32768) as i16;
        }
    }
    exact_coefficient(scaled, block, quantizer, n)
}

// The values of row v times their reciprocals.
fn scaled_row(values: &[f64; 64], reciprocals: &[f64; 64], v: usize) -> [f64; 8]
    requires { v < 8 }
    ensures { result ≡ tab 8 (λ u. mul binary64 (get_or values.now (8 * v + u) nan) (get_or reciprocals.now (8 * v + u) nan)) }
{
    array::from_fn(|u| values[8 * v + u] * reciprocals[8 * v + u])
}

// Whether the sum with ROUNDING can settle each of eight values. No branch for each, here and below, so that the compiler works on
// several at once.
#[tactic(auto, unfolding(lists::specs::Below::below))]
fn all_in_range(scaled: &[f64; 8]) -> bool
    ensures { result ≡ below 8 (λ u. in_range (get_or scaled.now u nan)) }
{
    let mut all = true;
    for q in scaled {
        all &= (-32767.0 < *q) & (*q < 32767.0);
    }
    all
}

// The lower digits of the sums.
fn points_of(scaled: &[f64; 8]) -> [u32; 8]
    requires by_index { (u : ℕ) → u < 8 → T (fits binary64 (get_or scaled.now u nan)) }
    requires nan_value { below 8 (λ u. in_range (get_or scaled.now u nan)) ≡ true }
    ensures { result ≡ tab 8 (λ u. point (get_or scaled.now u nan)) }
{
    let mut points = [0u32; 8];
    for u in 0..8 {
        points[u] = (f64::to_bits(scaled[u] + ROUNDING) % 0x10_0000_0000_0000) as u32;
    }
    points
}

// Whether no rest is at an end of its range.
#[tactic(auto, unfolding(lists::specs::Below::below))]
fn all_settled(points: &[u32; 8]) -> bool
    ensures { result ≡ below 8 (λ u. settled_point (get_or points.now u 0)) }
{
    let mut all = true;
    for point in points {
        let rest = *point % 0x1_0000;
        all &= (2 <= rest) & (rest <= 65534);
    }
    all
}

// The part above the rest.
fn whole_part(point: u32) -> i16
    ensures value { result ≡ pos (point / 65536) -ℤ pos 32768 }
    ensures sfits { SFits w16 result }
{
    (((point / 0x1_0000) as i32) - 32768) as i16
}

fn whole_parts(points: &[u32; 8]) -> [i16; 8]
    ensures { result ≡ tab 8 (λ u. pos (get_or points.now u 0 / 65536) -ℤ pos 32768) }
{
    array::from_fn(|u| whole_part(points[u]))
}

// The coefficients of row v, one after the other.
fn each_coefficient(scaled: &[f64; 8], block: &[u8; 64], quant: &[u8; 64], v: usize) -> [i16; 8]
    requires { v < 8 }
    ensures { result ≡ tab 8 (λ u. by_value block.now quant.now (8 * v + u) (get_or scaled.now u nan)) }
{
    let mut row = [0i16; 8];
    for u in 0..8 {
        row[u] = coefficient_of(scaled[u], block, quant[8 * v + u], 8 * v + u);
    }
    row
}

// The coefficients of row v: where one sum settles each of them, at once.
fn row_coefficients(scaled: &[f64; 8], block: &[u8; 64], quant: &[u8; 64], v: usize) -> [i16; 8]
    requires by_index { (u : ℕ) → u < 8 → T (fits binary64 (get_or scaled.now u nan)) }
    requires v_bound { v < 8 }
    ensures { result ≡ tab 8 (λ u. by_value block.now quant.now (8 * v + u) (get_or scaled.now u nan)) }
{
    if all_in_range(scaled) {
        let points = points_of(scaled);
        if all_settled(&points) {
            return whole_parts(&points);
        }
    }
    each_coefficient(scaled, block, quant, v)
}

// The coefficients in natural order.
pub fn guarded_coefficients(
    block: &[u8; 64],
    quant: &[u8; 64],
    reciprocals: &[f64; 64],
) -> [i16; 64]
    ensures { result ≡ tab 64 (guarded block.now quant.now reciprocals.now) }
{
    let values = fdct_values(block);
    let mut coefficients = [0i16; 64];
    for v in 0..8 {
        let scaled = scaled_row(&values, reciprocals, v);
        let row = row_coefficients(&scaled, block, quant, v);
        for u in 0..8 {
            coefficients[8 * v + u] = row[u];
        }
    }
    coefficients
}
