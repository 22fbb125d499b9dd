// The canonical forward transform with quantizing of 8-bit blocks (fdct.rs; document 01, leaves 3 and 4; T.81 A.3.3 and A.3.4), and of
// 12-bit ones (document 02, card 8).
//
// Samples are level-shifted by 128, those of 12 bits by 2048 (T.81 A.3.1); the transform itself, in crate `fdct_block`, serves samples of
// up to 12 bits and quantizers of 16. The definitions of what both write, and the laws, are over the centre and the largest sample.

#![tactic(auto)]

pub mod block_sums;
pub mod twelve_bit;

ghost use Rattle.std.specs.Prelude.{◌≡◌, length, pos};
ghost use Rattle.forward.specs.Forward.{centred_block};
ghost use Rattle.refusals.specs.Refusals.{block_tests, status, written};
ghost use Rattle.refusals.specs.Numbers.{status_of, told};
ghost use Rattle.forward.specs.Canonical.{coefficients_at, coefficients, coefficient_answer};
ghost use Rattle.fdct.specs.Level.{Level};

use fdct_block::{coefficient_at, write_coefficients};
use refusals::Refusal;
use std::array;

// An 8-bit table, or an 8-bit block, as one of 16 bits. It takes a slice, as do `write_block` and
// `is_12bit`: docs/PROOFS.md names them, and an array would ask more of their callers.
pub fn widen(narrow: &[u8]) -> [u16; 64]
    requires { length narrow.now ≡ 64 }
    ensures { result ≡ narrow.now }
{
    array::from_fn(|i| u16::from(narrow[i]))
}

// The samples less their centre.
fn level_shift(block: &[u16; 64], centre: u16) -> [i16; 64]
    requires { Level block.now centre }
    ensures { result ≡ centred_block centre block.now }
{
    array::from_fn(|i| (block[i] as i16) - (centre as i16))
}

// The coefficients of a block of samples with this centre. Both widths call it, so that the folds are in line behind the level shift: in
// a function that is handed the shifted samples they are not.
fn write_centred(block: &[u16; 64], centre: u16, quant: &[u16; 64], out: &mut [i16])
    requires out_len { length out.old ≡ 64 }
    requires level { Level block.now centre }
    ensures { out.new ≡ coefficients_at centre block.now quant.now }
{
    let samples = level_shift(block, centre);
    write_coefficients(&samples, quant, out);
}

// The coefficients of an 8-bit block under a widened table: the step of `fdct_quantize`, and of a plane that widens its table once.
pub fn write_block(block: &[u8], quant: &[u16; 64], out: &mut [i16])
    requires { (length block.now ≡ 64) × (length out.old ≡ 64) }
    ensures { out.new ≡ coefficients block.now quant.now }
{
    write_centred(&widen(block), 128, quant, out);
}

#[tactic(auto, unfolding(refusals::specs::Refusals::status, refusals::specs::Refusals::written))]
pub fn fdct_quantize(block: &[u8], quant: &[u8], out: &mut [i16]) -> Result<(), Refusal>
    ensures value { status_of result ≡ status (block_tests block.now quant.now out.old) }
    ensures out_after { out.new ≡ written (status_of result) (coefficients block.now quant.now) out.old }
{
    Refusal::Block.unless(block.len() == 64)?;
    Refusal::Table.unless(quant.len() == 64)?;
    Refusal::Output.unless(out.len() == 64)?;
    write_block(block, &widen(quant), out);
    Ok(())
}

#[tactic(auto, unfolding(refusals::specs::Refusals::status, refusals::specs::Refusals::written))]
pub fn fdct_quantize_coefficient(
    block: &[u8],
    quantizer: u8,
    natural: usize,
) -> Result<i16, Refusal>
    ensures { told (pos 0) result ≡ coefficient_answer block.now quantizer natural }
{
    Refusal::Block.unless(block.len() == 64)?;
    Refusal::Index.unless(natural <= 63)?;
    let samples = level_shift(&widen(block), 128);
    Ok(coefficient_at(&samples, u16::from(quantizer), natural))
}
