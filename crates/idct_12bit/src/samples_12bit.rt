// 12-bit samples of numbers that fit 32 bits (idct.rs, `sample_12bit`; document 01, leaf 1 and "The inverse blocks").
//
// A row of the 2×2 block gives such numbers, whatever 33-bit numbers it is made of: the absolute values of a row's gains sum to less than
// 2^(shift - 1) (`row-small-two` of proofs/Small.antt). Clamped at 32 bits, the samples of a row are packed; at 64 bits they are not.
ghost use Rattle.std.specs.Prelude.{◌≡◌, map, ◌+◌, ◌-◌, ◌≤◌, ◌^◌, nat_abs, length};
ghost use Rattle.std.proofs.Math.Seq.{paste};
ghost use Rattle.std.specs.Int.{w32};
ghost use Rattle.integers.specs.Wrap.{wrap};
ghost use Rattle.clamping.specs.Clamping.{sample12bit};
ghost use Rattle.block.specs.Bound.{AtMost};

use wrapping::Wrapping;

// The low 32 bits of x. No cast that asks whether x fits: the compiler would take the number back to 64 bits.
fn low_32(x: i64) -> i32
    ensures { result ≡ wrap w32 x }
{
    ((x.cast_unsigned() % 0x1_0000_0000) as u32).cast_signed()
}

// `clamping::sample_12bit` of a number whose level shift fits 32 bits.
fn sample_small(value: i64) -> u16
    requires { nat_abs value ≤ 2 ^ 31 - 2 ^ 12 }
    ensures { result ≡ sample12bit value }
{
    let shifted = low_32(value).add(2048);
    if shifted < 0 {
        return 0;
    }
    if shifted > 4095 {
        return 4095;
    }
    shifted as u16
}

// `block_access::put_row` of such numbers.
pub fn put_row_small(output: &mut [u16], at: usize, q: &[i64])
    requires q_in_bounds { at + length q.now ≤ length output.old }
    requires at_most { AtMost (2 ^ 31 - 2 ^ 12) q.now }
    ensures { output.new ≡ paste output.old at (map sample12bit q.now) (length q.now) }
{
    for k in 0..q.len() {
        output[at + k] = sample_small(q[k]);
    }
}
