// Blocks of stored coefficients (document 01, "Added by design"; the screen by document 02, card 3): dequantizing, the screen and sameness.
//
// A product of a 16-bit coefficient and a divisor of 1..255 is at most 32768·255 in absolute value, well within 32 bits.

#![tactic(auto)]

ghost use Rattle.std.specs.Prelude.{◌≡◌, ◌≤◌, false, pos, nat_abs, ◌+ℤ◌, ◌-ℤ◌, ◌*ℤ◌, ◌&&◌};
ghost use Rattle.quantize.specs.Quantize.{divisor_of};
ghost use Rattle.refusals.specs.Refusals.{block_tests, status, written};
ghost use Rattle.refusals.specs.Numbers.{status_of, told};
ghost use Rattle.stored_blocks.specs.Dequantize.{dequantized};
ghost use Rattle.std.specs.Int.Signed.{le_z};
ghost use Rattle.stored_blocks.specs.Screen.{low_limits, high_limits};
ghost use Rattle.stored_blocks.specs.Stored.{screened, screen_answer, same_answer};

use quantize::divisor;
use refusals::Refusal;
use std::array;

// low in units of 2^31, rounded towards 0: the least 2·c·d + d of a coefficient that passes.
const LOW_LIMITS: [i32; 64] = [
    -2048, -1848, -1884, -1848, -2040, -1848, -1884, -1848, -1848, -1674, -1707, -1674, -1848,
    -1674, -1707, -1674, -1884, -1707, -1741, -1707, -1884, -1707, -1741, -1707, -1848, -1674,
    -1707, -1674, -1848, -1674, -1707, -1674, -2040, -1848, -1884, -1848, -2040, -1848, -1884,
    -1848, -1848, -1674, -1707, -1674, -1848, -1674, -1707, -1674, -1884, -1707, -1741, -1707,
    -1884, -1707, -1741, -1707, -1848, -1674, -1707, -1674, -1848, -1674, -1707, -1674,
];

// high in units of 2^31, rounded down: the greatest 2·c·d - d of one that passes.
const HIGH_LIMITS: [i32; 64] = [
    2032, 1848, 1884, 1848, 2040, 1848, 1884, 1848, 1848, 1674, 1707, 1674, 1848, 1674, 1707, 1674,
    1884, 1707, 1741, 1707, 1884, 1707, 1741, 1707, 1848, 1674, 1707, 1674, 1848, 1674, 1707, 1674,
    2040, 1848, 1884, 1848, 2040, 1848, 1884, 1848, 1848, 1674, 1707, 1674, 1848, 1674, 1707, 1674,
    1884, 1707, 1741, 1707, 1884, 1707, 1741, 1707, 1848, 1674, 1707, 1674, 1848, 1674, 1707, 1674,
];

// A coefficient times its divisor.
pub fn product(coefficient: i16, quantizer: u8) -> i32
    ensures value { result ≡ coefficient *ℤ pos (divisor_of quantizer) }
    ensures result_bound { nat_abs result ≤ 8355840 }
{
    (coefficient as i32) * (divisor(quantizer as u16) as i32)
}

// Made apart from the output, so that the compiler makes many at once: it cannot know that the lent
// output lies apart from the inputs.
fn products(coefficients: &[i16; 64], quant: &[u8; 64]) -> [i32; 64]
    ensures { result ≡ dequantized coefficients.now quant.now }
{
    array::from_fn(|n| product(coefficients[n], quant[n]))
}

#[tactic(auto, unfolding(refusals::specs::Refusals::status, refusals::specs::Refusals::written))]
pub fn dequantize(coefficients: &[i16], quant: &[u8], out: &mut [i32]) -> Result<(), Refusal>
    ensures value { status_of result ≡ status (block_tests coefficients.now quant.now out.old) }
    ensures out_after { out.new ≡ written (status_of result) (dequantized coefficients.now quant.now) out.old }
{
    let coefficients = coefficients.try_into().map_err(|_| Refusal::Block)?;
    let table = quant.try_into().map_err(|_| Refusal::Table)?;
    // Not converted: nothing is proved of what a converted output ends as.
    Refusal::Output.unless(out.len() == 64)?;
    out.copy_from_slice(&products(coefficients, table));
    Ok(())
}

fn low_limits() -> [i32; 64]
    ensures { result ≡ low_limits }
{
    LOW_LIMITS
}

fn high_limits() -> [i32; 64]
    ensures { result ≡ high_limits }
{
    HIGH_LIMITS
}

// The numbers that round to c > 0 begin at (2c - 1)·d·2^31, so c passes when (2c - 1)·d is at most high / 2^31 rounded down; c < 0 likewise
// with low; 0 always. Each comparison holds by itself where c has the other sign.
fn passes(coefficient: i16, quantizer: u8, low: i32, high: i32) -> bool
    ensures { result ≡ (le_z (pos 2 *ℤ (coefficient *ℤ pos (divisor_of quantizer)) -ℤ pos (divisor_of quantizer)) high && le_z low (pos 2 *ℤ (coefficient *ℤ pos (divisor_of quantizer)) +ℤ pos (divisor_of quantizer))) }
{
    let twice = 2 * product(coefficient, quantizer);
    let d = divisor(quantizer as u16) as i32;
    (twice - d <= high) & (low <= twice + d)
}

// No branch for each place, so that the compiler tests many at once.
fn all_pass(coefficients: &[i16; 64], quant: &[u8; 64]) -> bool
    ensures { result ≡ screened coefficients.now quant.now }
{
    let low = low_limits();
    let high = high_limits();
    let mut all = true;
    for n in 0..64 {
        all = passes(coefficients[n], quant[n], low[n], high[n]) & all;
    }
    all
}

// Whether each coefficient is what some whole number from low to high of its frequency rounds to under its divisor. This judges frequencies
// singly and says nothing of whole blocks; what `fdct_quantize` writes passes (`canonical-passes`).
#[tactic(auto, unfolding(refusals::specs::Refusals::status, refusals::specs::Refusals::written))]
pub fn screen(coefficients: &[i16], quant: &[u8]) -> Result<bool, Refusal>
    ensures { told false result ≡ screen_answer coefficients.now quant.now }
{
    let coefficients = coefficients.try_into().map_err(|_| Refusal::Block)?;
    let quant = quant.try_into().map_err(|_| Refusal::Table)?;
    Ok(all_pass(coefficients, quant))
}

#[tactic(auto, using(crate::proofs::Entries::compared), unfolding(refusals::specs::Refusals::status, refusals::specs::Refusals::written))]
pub fn same(a: &[i16], b: &[i16]) -> Result<bool, Refusal>
    ensures { told false result ≡ same_answer a.now b.now }
{
    let a: &[i16; 64] = a.try_into().map_err(|_| Refusal::Block)?;
    let b: &[i16; 64] = b.try_into().map_err(|_| Refusal::Block)?;
    Ok(a == b)
}
