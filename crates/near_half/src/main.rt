// The guarded quantizer and the canonical one over blocks that have a value near a half (document
// 02, card 10): 300 of the harness with one inside the guard, and 300 with one less than four times
// as far, outside of it (oracle/guarded.rs). Prints how many blocks and coefficients there were, at
// how many coefficients the guard was taken, and at how many the two quantizers differ.
//
// Standard input has 64 samples and 64 quantizers for each block. A failed read counts as the end;
// a write that fails is `main`'s error.

#![tactic(auto)]

ghost use Rattle.std.specs.Prelude.{◌≤◌};

use fdct::fdct_quantize;
use fdct_f64::{fdct_values, quantization_divisors};
use guarded_record::fdct_quantize_record;
use std::io;
use streams::read_full;
use transform::binary64::near_half;
use zigzag::zigzag;

// A proved loop has to end, and nothing says that the input does. There are fewer blocks.
const MOST: u64 = 1_000_000;

// At how many frequencies the value times its reciprocal is near a half; 0 where a call is refused.
fn guards_of(block: &[u8; 64], quant: &[u8; 64]) -> usize
    ensures { result ≤ 64 }
{
    let Ok(divisors) = quantization_divisors(quant) else {
        return 0;
    };
    fdct_values(block)
        .iter()
        .zip(&divisors.reciprocals)
        .filter(|(value, reciprocal)| near_half(**value * **reciprocal))
        .count()
}

// At how many frequencies the record has another coefficient than the canonical block entry writes;
// 64 where a call is refused.
fn differences_of(block: &[u8; 64], quant: &[u8; 64]) -> usize
    ensures { result ≤ 64 }
{
    let mut canonical = [0i16; 64];
    let (Ok(record), Ok(())) = (
        fdct_quantize_record(block, quant),
        fdct_quantize(block, quant, &mut canonical),
    ) else {
        return 64;
    };
    let mut held = record.ac_coefficients;
    held[0] = record.dc;
    // Each entry of zigzag order is below 64.
    held.iter()
        .zip(zigzag())
        .filter(|(c, natural)| **c != canonical[usize::from(*natural) % 64])
        .count()
}

fn main(rt: HostRuntime) -> io::Result<()> {
    let mut input = rt.reader();
    let mut blocks: usize = 0;
    let mut guards: usize = 0;
    let mut differences: usize = 0;
    let mut block = [0u8; 64];
    let mut quant = [0u8; 64];
    for _ in 0..MOST {
        read_full(&mut input, &mut block);
        if read_full(&mut input, &mut quant) != 64 {
            break;
        }
        guards += guards_of(&block, &quant);
        differences += differences_of(&block, &quant);
        blocks += 1;
    }
    println!(rt; "blocks {blocks}")?;
    println!(rt; "coefficients {}", 64 * blocks)?;
    println!(rt; "guard taken {guards}")?;
    println!(rt; "differences {differences}")
}
