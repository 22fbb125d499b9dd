// The guarded quantizer and its divisors (crates transform and fdct_f64), with their answers in lent places.
ghost use Rattle.std.specs.Prelude.{◌≡◌, [], ◌∷◌, ◌++◌, length, eqb};
ghost use Rattle.refusals.specs.Numbers.{status_of};
ghost use Rattle.refusals.specs.Refusals.{◌unless◌, ◌of◌, status, written};
ghost use Rattle.guarded_quantizer.specs.Divisors.{table_tests, divisors_answer};
ghost use Rattle.guarded_quantizer.specs.Answer.{guarded_tests, guarded_answer};
ghost use Rattle.jpeg_block.specs.Places.{record_place_tests, record_tests};

use crate::place::status;
use fdct_f64::quantization_divisors;
use guarded_quantizer::QuantizedBlock;
use refusals::Refusal;
use transform::{guarded_status, record_of};

#[tactic(auto, unfolding(refusals::specs::Refusals::status, refusals::specs::Refusals::written))]
fn put_all(from: &[f64; 64], to: &mut [f64]) -> Result<(), Refusal>
    ensures value { status_of result ≡ status (3 unless to.old of 64 ∷ []) }
    ensures to_after { to.new ≡ written (status_of result) from.now to.old }
{
    Refusal::Output.unless(to.len() == 64)?;
    to.copy_from_slice(from);
    Ok(())
}

// `fdct_f64::quantization_divisors`. Refusals 2 and 5, then 3 for the output.
#[tactic(auto, unfolding(refusals::specs::Refusals::status, refusals::specs::Refusals::written))]
#[unsafe(no_mangle)]
pub extern "C" fn jpeg_block_quantization_divisors(quant: &[u8], out: &mut [f64]) -> u32
    ensures value { result ≡ status (table_tests quant.now ++ 3 unless out.old of 64 ∷ []) } // 2, 5, then 3
    ensures out_after { out.new ≡ written result (divisors_answer quant.now).value.reciprocals out.old }
{
    match quantization_divisors(quant) {
        Ok(divisors) => status(put_all(&divisors.reciprocals, out)),
        Err(refusal) => refusal.number(),
    }
}

// The tests of the places of a record, by the lengths.
#[tactic(auto, unfolding(refusals::specs::Refusals::status))]
fn record_room(dc: usize, ac: usize, nonzero_ac: usize, divisors: usize) -> Result<(), Refusal>
    ensures { status_of result ≡ status (record_place_tests dc ac nonzero_ac divisors) }
{
    Refusal::Output.unless(dc == 1)?;
    Refusal::Output.unless(ac == 64)?;
    Refusal::Output.unless(nonzero_ac == 1)?;
    Refusal::Output.unless(divisors == 64)
}

// The parts of a record into lent places.
fn put_parts(
    made: QuantizedBlock,
    dc: &mut [i16],
    ac: &mut [i16],
    nonzero_ac: &mut [u64],
    record_divisors: &mut [u8],
)
    requires { (length dc.old ≡ 1) × (length ac.old ≡ 64) × (length nonzero_ac.old ≡ 1) × (length record_divisors.old ≡ 64) }
    ensures dc_after { dc.new ≡ made.dc ∷ [] }
    ensures ac_after { ac.new ≡ made.ac_coefficients }
    ensures nonzero_ac_after { nonzero_ac.new ≡ made.nonzero_ac ∷ [] }
    ensures record_divisors_after { record_divisors.new ≡ made.divisors }
{
    dc[0] = made.dc;
    ac.copy_from_slice(&made.ac_coefficients);
    nonzero_ac[0] = made.nonzero_ac;
    record_divisors.copy_from_slice(&made.divisors);
}

// The same, by the lengths of the places.
#[tactic(auto, unfolding(refusals::specs::Refusals::status, refusals::specs::Refusals::written))]
pub fn put_record(
    made: QuantizedBlock,
    dc: &mut [i16],
    ac: &mut [i16],
    nonzero_ac: &mut [u64],
    record_divisors: &mut [u8],
) -> Result<(), Refusal>
    ensures value { status_of result ≡ status (record_place_tests (length dc.old) (length ac.old) (length nonzero_ac.old) (length record_divisors.old)) }
    ensures dc_after { dc.new ≡ written (status_of result) (made.dc ∷ []) dc.old }
    ensures ac_after { ac.new ≡ written (status_of result) made.ac_coefficients ac.old }
    ensures nonzero_ac_after { nonzero_ac.new ≡ written (status_of result) (made.nonzero_ac ∷ []) nonzero_ac.old }
    ensures record_divisors_after { record_divisors.new ≡ written (status_of result) made.divisors record_divisors.old }
{
    record_room(dc.len(), ac.len(), nonzero_ac.len(), record_divisors.len())?;
    put_parts(made, dc, ac, nonzero_ac, record_divisors);
    Ok(())
}

// The entry's tests, and that of the divisors' length.
#[tactic(auto, unfolding(refusals::specs::Refusals::status, refusals::specs::Refusals::written))]
fn guarded_room(block: &[u8], quant: &[u8], divisors: usize) -> Result<(), Refusal>
    ensures { status_of result ≡ status (guarded_tests block.now quant.now ++ 2 unless eqb divisors 64 ∷ []) }
{
    guarded_status(block, quant)?;
    Refusal::Table.unless(divisors == 64)
}

// `transform::fdct_quantize`: refusals 1, 2 and 5, then 2 for the divisors and 3 for a place. The divisors are used as handed over,
// whatever they hold; the record's are those of the table. They stay where they lie: by value they would be copied twice.
#[tactic(auto, unfolding(refusals::specs::Refusals::status, refusals::specs::Refusals::written))]
#[unsafe(no_mangle)]
pub extern "C" fn jpeg_block_fdct_quantize_guarded(
    block: &[u8],
    quant: &[u8],
    divisors: &[f64],
    dc: &mut [i16],
    ac: &mut [i16],
    nonzero_ac: &mut [u64],
    record_divisors: &mut [u8],
) -> u32
    ensures value { result ≡ status (guarded_tests block.now quant.now ++ record_tests (length divisors.now) (length dc.old) (length ac.old) (length nonzero_ac.old) (length record_divisors.old)) }
    ensures dc_after { dc.new ≡ written result ((guarded_answer block.now quant.now divisors.now).value.dc ∷ []) dc.old }
    ensures ac_after { ac.new ≡ written result (guarded_answer block.now quant.now divisors.now).value.ac_coefficients ac.old }
    ensures nonzero_ac_after { nonzero_ac.new ≡ written result ((guarded_answer block.now quant.now divisors.now).value.nonzero_ac ∷ []) nonzero_ac.old }
    ensures record_divisors_after { record_divisors.new ≡ written result (guarded_answer block.now quant.now divisors.now).value.divisors record_divisors.old }
{
    if let Err(refusal) = guarded_room(block, quant, divisors.len()) {
        return refusal.number();
    }
    if let Err(refusal) = record_room(dc.len(), ac.len(), nonzero_ac.len(), record_divisors.len()) {
        return refusal.number();
    }
    put_parts(
        record_of(block, quant, divisors),
        dc,
        ac,
        nonzero_ac,
        record_divisors,
    );
    0
}
