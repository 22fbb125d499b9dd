// Document 02, card 8, of what the calls write: two 12-bit blocks with equal coefficients. The theorem over the definitions is
// `alike-12bit` of the crate bounds.
ghost use Rattle.std.specs.Prelude.{◌≡◌, false, length};
ghost use Rattle.refusals.specs.Refusals.{status, written};
ghost use Rattle.refusals.specs.Numbers.{status_of, told};
ghost use Rattle.forward.specs.Canonical.{coefficients12bit};
ghost use Rattle.bounds.specs.Calls.{compare_tests12bit, compared_answer12bit, Claimed12bit};

use fdct::twelve_bit::{fdct_quantize_12bit, is_12bit};
use refusals::Refusal;
use stored_blocks::same;

// The lengths and the samples.
#[tactic(auto, unfolding(refusals::specs::Refusals::status, bounds::specs::Calls::compare_tests12bit))]
fn test_blocks(
    a: &[u16],
    b: &[u16],
    quant: usize,
    coefficients_a: usize,
    coefficients_b: usize,
) -> Result<(), Refusal>
    ensures { status_of result ≡ status (compare_tests12bit a.now b.now quant coefficients_a coefficients_b) }
{
    Refusal::Block.unless(a.len() == 64)?;
    Refusal::Block.unless(b.len() == 64)?;
    Refusal::Table.unless(quant == 64)?;
    Refusal::Output.unless(coefficients_a == 64)?;
    Refusal::Output.unless(coefficients_b == 64)?;
    Refusal::Sample.unless(is_12bit(a))?;
    Refusal::Sample.unless(is_12bit(b))
}

// Codes two 12-bit blocks under one table and compares their coefficients. Where these are the same, (2^23 - 1) times the sum of the
// squared differences of the samples is at most 2^23 times the sum of the squared divisors.
pub fn compare_12bit(
    a: &[u16],
    b: &[u16],
    quant: &[u16],
    coefficients_a: &mut [i16],
    coefficients_b: &mut [i16],
) -> Result<bool, Refusal>
    ensures value { told false result ≡ compared_answer12bit (status (compare_tests12bit a.now b.now (length quant.now) (length coefficients_a.old) (length coefficients_b.old))) a.now b.now quant.now }
    ensures coefficients_a_after { coefficients_a.new ≡ written (status_of result) (coefficients12bit a.now quant.now) coefficients_a.old }
    ensures coefficients_b_after { coefficients_b.new ≡ written (status_of result) (coefficients12bit b.now quant.now) coefficients_b.old }
    ensures claimed12bit { status_of result ≡ 0 → Claimed12bit quant.now a.now b.now coefficients_a.new coefficients_b.new }
{
    test_blocks(
        a,
        b,
        quant.len(),
        coefficients_a.len(),
        coefficients_b.len(),
    )?;
    fdct_quantize_12bit(a, quant, coefficients_a)?;
    fdct_quantize_12bit(b, quant, coefficients_b)?;
    same(coefficients_a, coefficients_b)
}
