// The forward entries: 64 samples and what quantizes them; the coefficients. And the two tables of
// zigzag order.
use crate::file::replay;
use crate::numbers::put_each;
use std::io;
use std::rt::Files;

pub fn replay_all(rt: &(impl Files + Print + Eprint + Alloc)) -> io::Result<()> {
    replay(rt, "fdct_quantize", |case: &[u8; 128]| {
        let mut output = [0i16; 64];
        fdct::fdct_quantize(&case[..64], &case[64..], &mut output).ok()?;
        let mut answer = [0u8; 128];
        put_each(answer.as_chunks_mut().0, &output, i16::to_le_bytes);
        Some(answer)
    })?;
    replay(rt, "fdct_quantize_coefficient", |case: &[u8; 66]| {
        fdct::fdct_quantize_coefficient(&case[..64], case[64], usize::from(case[65]))
            .ok()
            .map(i16::to_le_bytes)
    })?;
    // The tables of zigzag order have no input. A record has a byte for each place.
    replay(rt, "zigzag", |_: &[u8; 0]| Some(zigzag::zigzag()))?;
    replay(rt, "natural_to_zigzag", |_: &[u8; 0]| {
        Some(zigzag::natural::natural_to_zigzag().map(|place| (place % 0x100) as u8))
    })
}
