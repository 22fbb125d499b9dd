// Blocks of stored coefficients (crate stored_blocks).
ghost use Rattle.std.specs.Prelude.{◌≡◌, [], ◌∷◌, ◌++◌};
ghost use Rattle.refusals.specs.Refusals.{block_tests, status, written};
ghost use Rattle.stored_blocks.specs.Dequantize.{dequantized};
ghost use Rattle.stored_blocks.specs.Stored.{screen_tests, screen_answer, same_tests, same_answer};
ghost use Rattle.jpeg_block.specs.Places.{place_tests, flag};

use crate::place::{put, status};
use stored_blocks::{dequantize, same, screen};

#[unsafe(no_mangle)]
pub extern "C" fn jpeg_block_dequantize(coefficients: &[i16], quant: &[u8], out: &mut [i32]) -> u32
    ensures value { result ≡ status (block_tests coefficients.now quant.now out.old) }
    ensures out_after { out.new ≡ written result (dequantized coefficients.now quant.now) out.old }
{
    status(dequantize(coefficients, quant, out))
}

// 1 for yes, 0 for no, into a lent place.
#[tactic(auto, unfolding(refusals::specs::Refusals::status, refusals::specs::Refusals::written, crate::specs::Places::flag))]
#[unsafe(no_mangle)]
pub extern "C" fn jpeg_block_screen(coefficients: &[i16], quant: &[u8], yes: &mut [u8]) -> u32
    ensures value { result ≡ status (screen_tests coefficients.now quant.now ++ place_tests yes.old) }
    ensures yes_after { yes.new ≡ written result (flag (screen_answer coefficients.now quant.now).value ∷ []) yes.old }
{
    match screen(coefficients, quant) {
        Ok(passed) => status(put(u8::from(passed), yes)),
        Err(refusal) => refusal.number(),
    }
}

#[tactic(auto, unfolding(refusals::specs::Refusals::status, refusals::specs::Refusals::written, crate::specs::Places::flag))]
#[unsafe(no_mangle)]
pub extern "C" fn jpeg_block_same(a: &[i16], b: &[i16], yes: &mut [u8]) -> u32
    ensures value { result ≡ status (same_tests a.now b.now ++ place_tests yes.old) }
    ensures yes_after { yes.new ≡ written result (flag (same_answer a.now b.now).value ∷ []) yes.old }
{
    match same(a, b) {
        Ok(equal) => status(put(u8::from(equal), yes)),
        Err(refusal) => refusal.number(),
    }
}
