// The record of a block's canonical coefficients, by the guarded quantizer (document 02, card 10).
//
// The divisors are made from the table that the block is quantized under, so the guarded coefficients are the canonical ones (crate
// agreement), and so is all that the record says of its block: demand 3's bounds, the screen, sameness (proofs/Consequences.antt).

#![tactic(auto)]

ghost use Rattle.std.specs.Prelude.{◌≡◌};
ghost use Rattle.refusals.specs.Numbers.{told};
ghost use Rattle.guarded_quantizer.specs.Answer.{zero_record};
ghost use Rattle.agreement.specs.Agreement.{canonical_answer};

use fdct_f64::quantization_divisors;
use guarded_quantizer::QuantizedBlock;
use refusals::Refusal;
use transform::fdct_quantize;

// Refusals 1, 2 and 5: the block is tested before the divisors are made, and the entry tests it again.
pub fn fdct_quantize_record(block: &[u8], quant: &[u8]) -> Result<QuantizedBlock, Refusal>
    ensures { told zero_record result ≡ canonical_answer block.now quant.now }
{
    Refusal::Block.unless(block.len() == 64)?;
    let divisors = quantization_divisors(quant)?;
    fdct_quantize(block, quant, divisors)
}
