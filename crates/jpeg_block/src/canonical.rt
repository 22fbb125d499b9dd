// The canonical forward transform with quantizing (crate fdct).
ghost use Rattle.std.specs.Prelude.{◌≡◌, [], ◌∷◌, ◌++◌};
ghost use Rattle.refusals.specs.Refusals.{block_tests, status, written};
ghost use Rattle.forward.specs.Canonical.{coefficients, coefficient_tests, coefficient_answer};
ghost use Rattle.jpeg_block.specs.Places.{place_tests};

use crate::place::{put, status};
use fdct::{fdct_quantize, fdct_quantize_coefficient};

#[unsafe(no_mangle)]
pub extern "C" fn jpeg_block_fdct_quantize(block: &[u8], quant: &[u8], out: &mut [i16]) -> u32
    ensures value { result ≡ status (block_tests block.now quant.now out.old) }
    ensures out_after { out.new ≡ written result (coefficients block.now quant.now) out.old }
{
    status(fdct_quantize(block, quant, out))
}

// Refusals 1 and 4, then 3 for the place of the coefficient.
#[tactic(auto, unfolding(refusals::specs::Refusals::status, refusals::specs::Refusals::written))]
#[unsafe(no_mangle)]
pub extern "C" fn jpeg_block_fdct_quantize_coefficient(
    block: &[u8],
    quantizer: u8,
    natural: usize,
    out: &mut [i16],
) -> u32
    ensures value { result ≡ status (coefficient_tests block.now natural ++ place_tests out.old) }
    ensures out_after { out.new ≡ written result ((coefficient_answer block.now quantizer natural).value ∷ []) out.old }
{
    match fdct_quantize_coefficient(block, quantizer, natural) {
        Ok(value) => status(put(value, out)),
        Err(refusal) => refusal.number(),
    }
}
