// The record of the canonical coefficients (crate guarded_record), with its parts in lent places.
ghost use Rattle.std.specs.Prelude.{◌≡◌, [], ◌∷◌, ◌++◌, length};
ghost use Rattle.refusals.specs.Refusals.{status, written};
ghost use Rattle.guarded_quantizer.specs.Answer.{guarded_tests};
ghost use Rattle.agreement.specs.Agreement.{canonical_answer};
ghost use Rattle.jpeg_block.specs.Places.{record_place_tests};

use crate::guarded::put_record;
use crate::place::status;
use guarded_record::fdct_quantize_record;

// `guarded_record::fdct_quantize_record`: refusals 1, 2 and 5, then 3 for a place.
#[tactic(auto, unfolding(refusals::specs::Refusals::status, refusals::specs::Refusals::written))]
#[unsafe(no_mangle)]
pub extern "C" fn jpeg_block_fdct_quantize_record(
    block: &[u8],
    quant: &[u8],
    dc: &mut [i16],
    ac: &mut [i16],
    nonzero_ac: &mut [u64],
    record_divisors: &mut [u8],
) -> u32
    ensures value { result ≡ status (guarded_tests block.now quant.now ++ record_place_tests (length dc.old) (length ac.old) (length nonzero_ac.old) (length record_divisors.old)) }
    ensures dc_after { dc.new ≡ written result ((canonical_answer block.now quant.now).value.dc ∷ []) dc.old }
    ensures ac_after { ac.new ≡ written result (canonical_answer block.now quant.now).value.ac_coefficients ac.old }
    ensures nonzero_ac_after { nonzero_ac.new ≡ written result ((canonical_answer block.now quant.now).value.nonzero_ac ∷ []) nonzero_ac.old }
    ensures record_divisors_after { record_divisors.new ≡ written result (canonical_answer block.now quant.now).value.divisors record_divisors.old }
{
    match fdct_quantize_record(block, quant) {
        Ok(made) => status(put_record(made, dc, ac, nonzero_ac, record_divisors)),
        Err(refusal) => refusal.number(),
    }
}
