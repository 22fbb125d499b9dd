// The inverse block entries: 64 coefficients; the samples.
use crate::file::{Part, replay};
use crate::numbers::{accepted, numbers, put_each};
use block::Clamped;
use refusals::Refusal;
use std::io;
use std::rt::Files;

pub fn replay_narrow<O: Part, F: Fn(&[i16], &mut [u8]) -> Result<Clamped, Refusal>>(
    rt: &(impl Files + Print + Eprint + Alloc),
    name: &str,
    call: F,
) -> io::Result<()>
    requires { F.IsAlwaysCallable call }
{
    replay(rt, name, |case: &[u8; 128]| {
        let input: [i16; 64] = numbers(case.as_chunks().0, i16::from_le_bytes);
        let mut samples = O::default();
        let outcome = call(&input, samples.bytes_mut());
        accepted(outcome, samples)
    })
}

fn replay_wide<F: Fn(&[i32], &mut [u8]) -> Result<Clamped, Refusal>>(
    rt: &(impl Files + Print + Eprint + Alloc),
    name: &str,
    call: F,
) -> io::Result<()>
    requires { F.IsAlwaysCallable call }
{
    replay(rt, name, |case: &[u8; 256]| {
        let input: [i32; 64] = numbers(case.as_chunks().0, i32::from_le_bytes);
        let mut samples = [0u8; 64];
        let outcome = call(&input, &mut samples);
        accepted(outcome, samples)
    })
}

fn replay_12bit<O: Part, F: Fn(&[i16], &mut [u16]) -> Result<(), Refusal>>(
    rt: &(impl Files + Print + Eprint + Alloc),
    name: &str,
    call: F,
) -> io::Result<()>
    requires { F.IsAlwaysCallable call }
{
    replay(rt, name, |case: &[u8; 128]| {
        let input: [i16; 64] = numbers(case.as_chunks().0, i16::from_le_bytes);
        let mut answer = O::default();
        let places = answer.bytes_mut().as_chunks_mut().0;
        let mut samples = [0u16; 64];
        let outcome = call(&input, &mut samples[..places.len().min(64)]);
        put_each(places, &samples, u16::to_le_bytes);
        accepted(outcome, answer)
    })
}

pub fn replay_all(rt: &(impl Files + Print + Eprint + Alloc)) -> io::Result<()> {
    replay_narrow::<[u8; 64], _>(rt, "islow_block", idct_8x8::islow_block)?;
    replay_wide(rt, "islow_block_i32", idct_8x8::islow_block_i32)?;
    replay_narrow::<[u8; 64], _>(rt, "islow_block_top_half", idct_8x8::islow_block_top_half)?;
    replay_wide(
        rt,
        "islow_block_top_half_i32",
        idct_8x8::islow_block_top_half_i32,
    )?;
    replay_narrow::<[u8; 16], _>(rt, "islow_block_4x4", idct_reduced::islow_block_4x4)?;
    replay_narrow::<[u8; 4], _>(rt, "islow_block_2x2", idct_reduced::islow_block_2x2)?;
    replay_12bit::<[u8; 128], _>(rt, "islow_block_12bit", idct_12bit::islow_block_12bit)?;
    replay_12bit::<[u8; 32], _>(
        rt,
        "islow_block_12bit_4x4",
        idct_12bit::islow_block_12bit_4x4,
    )?;
    replay_12bit::<[u8; 8], _>(
        rt,
        "islow_block_12bit_2x2",
        idct_12bit::islow_block_12bit_2x2,
    )
}
