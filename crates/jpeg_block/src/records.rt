// Sameness of two records (crate transform). A record is handed over in parts: DC by value, the AC places and the divisors lent; the
// bitmap, which sameness does not look at, is not asked for.
ghost use Rattle.std.specs.Prelude.{◌≡◌, [], ◌∷◌, ◌++◌, false};
ghost use Rattle.refusals.specs.Refusals.{status, written};
ghost use Rattle.refusals.specs.Numbers.{answer, told};
ghost use Rattle.guarded_quantizer.specs.Same.{same_records};
ghost use Rattle.jpeg_block.specs.Places.{place_tests, flag, handed_tests, handed_record};

use crate::place::{put, status};
use guarded_quantizer::QuantizedBlock;
use refusals::Refusal;
use transform::same::same_records;

fn handed_record(dc: i16, ac: &[i16; 64], divisors: &[u8; 64]) -> QuantizedBlock
    ensures { result ≡ handed_record dc ac.now divisors.now }
{
    QuantizedBlock {
        dc,
        ac_coefficients: *ac,
        nonzero_ac: 0,
        divisors: *divisors,
    }
}

#[tactic(auto, unfolding(refusals::specs::Refusals::status, refusals::specs::Refusals::written))]
fn same_handed(
    a_dc: i16,
    a_ac: &[i16],
    a_divisors: &[u8],
    b_dc: i16,
    b_ac: &[i16],
    b_divisors: &[u8],
) -> Result<bool, Refusal>
    ensures { told false result ≡ answer (handed_tests a_ac.now a_divisors.now b_ac.now b_divisors.now) (same_records (handed_record a_dc a_ac.now a_divisors.now) (handed_record b_dc b_ac.now b_divisors.now)) false }
{
    let a_ac: &[i16; 64] = a_ac.try_into().map_err(|_| Refusal::Block)?;
    let b_ac: &[i16; 64] = b_ac.try_into().map_err(|_| Refusal::Block)?;
    let a_divisors: &[u8; 64] = a_divisors.try_into().map_err(|_| Refusal::Table)?;
    let b_divisors: &[u8; 64] = b_divisors.try_into().map_err(|_| Refusal::Table)?;
    let a = handed_record(a_dc, a_ac, a_divisors);
    let b = handed_record(b_dc, b_ac, b_divisors);
    Ok(same_records(a, b))
}

// 1 for yes, 0 for no, into a lent place. Refusals 1 for the AC places of either record, 2 for its divisors, then 3.
#[tactic(auto, unfolding(refusals::specs::Refusals::status, refusals::specs::Refusals::written, crate::specs::Places::flag))]
#[unsafe(no_mangle)]
pub extern "C" fn jpeg_block_same_records(
    a_dc: i16,
    a_ac: &[i16],
    a_divisors: &[u8],
    b_dc: i16,
    b_ac: &[i16],
    b_divisors: &[u8],
    yes: &mut [u8],
) -> u32
    ensures value { result ≡ status (handed_tests a_ac.now a_divisors.now b_ac.now b_divisors.now ++ place_tests yes.old) }
    ensures yes_after { yes.new ≡ written result (flag (same_records (handed_record a_dc a_ac.now a_divisors.now) (handed_record b_dc b_ac.now b_divisors.now)) ∷ []) yes.old }
{
    match same_handed(a_dc, a_ac, a_divisors, b_dc, b_ac, b_divisors) {
        Ok(same) => status(put(u8::from(same), yes)),
        Err(refusal) => refusal.number(),
    }
}
