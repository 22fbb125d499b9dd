// The 16-term sums of a fold against the basis (fdct.rs, `scaled_coefficient`; document 01, leaf 4), and their quantizing.
//
// A product of 16 by 32 bits is at most 2^46, so 16 of them fit 64 bits and the sums are exact, with no need for the Rust's halves of
// the basis. Folds of samples of up to 12 bits are at most 2^13, and their sums at most 2^46 (`sum-size` of crate forward).
ghost use Rattle.std.specs.Prelude.{◌≡◌, ◌^◌, ◌≤◌, ◌<◌, get_or, pos, nat_abs, ◌*ℤ◌};
ghost use Rattle.quantize.specs.Quantize.{coefficient};
ghost use Rattle.fdct_block.specs.Ready.{Folded};
ghost use Rattle.forward.specs.Sum.{sum_to};
ghost use Rattle.forward.specs.Parity.{fold_sum};

use basis::basis_row;
use quantize::quantize;

fn product(a: i16, b: i32) -> i64
    ensures value { result ≡ a *ℤ b }
    ensures result_bound { nat_abs result ≤ 2 ^ 46 }
{
    (a as i64) * (b as i64)
}

// The 16-term sum of a fold against a row of the basis.
fn row_sum(f: &[i16; 16], row: &[i32; 16]) -> i64
    ensures { result ≡ sum_to 16 (λ k. get_or f.now k (pos 0) *ℤ get_or row.now k (pos 0)) }
{
    let mut s = 0i64;
    for k in 0..16 {
        s += product(f[k], row[k]);
    }
    s
}

// The sum of frequency n, by its fold.
pub fn scaled(f: &[i16; 16], n: usize) -> i64
    requires folded { Folded f.now }
    requires n_bound { n < 64 }
    ensures value { result ≡ fold_sum f.now n }
    ensures size { nat_abs result ≤ 2 ^ 46 }
{
    row_sum(f, &basis_row(n))
}

// The coefficient of frequency n, by its fold. In line, so that a coefficient that is computed alone
// is divided in its caller.
#[inline(always)]
pub fn quantized(f: &[i16; 16], quantizer: u16, n: usize) -> i16
    requires folded { Folded f.now }
    requires n_bound { n < 64 }
    ensures value { result ≡ coefficient (fold_sum f.now n) quantizer }
    ensures result_bound { nat_abs result < 2 ^ 15 }
{
    quantize(scaled(f, n), quantizer)
}
