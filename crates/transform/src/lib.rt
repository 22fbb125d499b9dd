// The guarded quantizer (transform.rs, `fdct_quantize` without its vector code; document 01, "The guarded quantizer").
//
// After the refusals a block of equal samples goes its own way (`constant`); of any other, the guarded coefficients (`guarded`: the
// values of crate fdct_f64 times the reciprocals, rounded by the bits of one sum or, where that does not tell, by their own, `binary64`)
// are laid out as one record (`record`), with the table's divisors. Two records are compared in `same`.

#![tactic(auto)]

pub mod binary64;
mod constant;
mod guarded;
mod record;
pub mod same;

ghost use Rattle.std.specs.Prelude.{◌≡◌, length};
ghost use Rattle.refusals.specs.Refusals.{status};
ghost use Rattle.refusals.specs.Numbers.{status_of, told};
ghost use Rattle.guarded_quantizer.specs.Record.{record_of};
ghost use Rattle.guarded_quantizer.specs.Answer.{coefficients_of, guarded_tests, zero_record, guarded_answer};

use crate::constant::{all_equal, constant_record};
use crate::guarded::guarded_coefficients;
use crate::record::from_natural_order;
use fdct_f64::has_zero;
use guarded_quantizer::{QuantizationDivisors, QuantizedBlock};
use refusals::Refusal;

// The entry's refusals: 1, 2 and 5.
#[tactic(auto, unfolding(refusals::specs::Refusals::status))]
pub fn guarded_status(block: &[u8], quant: &[u8]) -> Result<(), Refusal>
    ensures { status_of result ≡ status (guarded_tests block.now quant.now) }
{
    Refusal::Block.unless(block.len() == 64)?;
    Refusal::Table.unless(quant.len() == 64)?;
    Refusal::ZeroQuantizer.unless(!has_zero(quant))
}

// The record of a block that is not refused. The reciprocals are lent, so that a caller that has them in a slice need not copy them.
pub fn record_of(block: &[u8], quant: &[u8], reciprocals: &[f64]) -> QuantizedBlock
    requires block_len { (length block.now ≡ 64) × (length quant.now ≡ 64) }
    requires reciprocals_len { length reciprocals.now ≡ 64 }
    ensures { result ≡ record_of quant.now (coefficients_of block.now quant.now reciprocals.now) }
{
    let (Ok(block), Ok(quant), Ok(reciprocals)) = (
        block.try_into(),
        quant.try_into(),
        reciprocals.try_into(),
    ) else {
        unreachable!()
    };
    if all_equal(block) {
        return constant_record(block, quant);
    }
    let coefficients = guarded_coefficients(block, quant, reciprocals);
    from_natural_order(&coefficients, quant)
}

// The divisors are used as handed over, whatever they hold; the record carries those of `quant`.
#[tactic(auto, unfolding(guarded_quantizer::specs::Answer::guarded_answer, refusals::specs::Refusals::status, refusals::specs::Refusals::written))]
pub fn fdct_quantize(
    block: &[u8],
    quant: &[u8],
    divisors: QuantizationDivisors,
) -> Result<QuantizedBlock, Refusal>
    ensures { told zero_record result ≡ guarded_answer block.now quant.now divisors.reciprocals }
{
    guarded_status(block, quant)?;
    Ok(record_of(block, quant, &divisors.reciprocals))
}
