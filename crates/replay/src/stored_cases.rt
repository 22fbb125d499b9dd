// The functions of stored blocks: 64 coefficients, and a quantizer table or 64 coefficients more;
// the answer, which is 1 for yes.
use crate::file::replay;
use crate::numbers::{numbers, put_each};
use std::io;
use std::rt::Files;

pub fn replay_all(rt: &(impl Files + Print + Eprint + Alloc)) -> io::Result<()> {
    replay(rt, "dequantize", |case: &[u8; 192]| {
        let input: [i16; 64] = numbers(case.as_chunks().0, i16::from_le_bytes);
        let mut output = [0i32; 64];
        stored_blocks::dequantize(&input, &case[128..], &mut output).ok()?;
        let mut answer = [0u8; 256];
        put_each(answer.as_chunks_mut().0, &output, i32::to_le_bytes);
        Some(answer)
    })?;
    replay(rt, "screen", |case: &[u8; 192]| {
        let input: [i16; 64] = numbers(case.as_chunks().0, i16::from_le_bytes);
        stored_blocks::screen(&input, &case[128..])
            .ok()
            .map(|yes| [u8::from(yes)])
    })?;
    replay(rt, "same", |case: &[u8; 256]| {
        let input: [i16; 64] = numbers(case.as_chunks().0, i16::from_le_bytes);
        let other: [i16; 64] = numbers(case[128..].as_chunks().0, i16::from_le_bytes);
        stored_blocks::same(&input, &other)
            .ok()
            .map(|yes| [u8::from(yes)])
    })
}
