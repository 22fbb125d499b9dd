// Scaling and clamping: the arguments; the answer.
use crate::file::replay;
use crate::numbers::numbers;
use std::io;
use std::rt::Files;

// The oracle is asked only for shifts that `descale` takes.
pub fn replay_all(rt: &(impl Files + Print + Eprint + Alloc)) -> io::Result<()> {
    replay(rt, "descale", |case: &[u8; 8]| {
        let [value, shift]: [i32; 2] = numbers(case.as_chunks().0, i32::from_le_bytes);
        scaling::descale(value, shift).ok().map(i32::to_le_bytes)
    })?;
    replay(rt, "islow_dc", |case: &[u8; 4]| {
        Some(scaling::islow_dc(i32::from_le_bytes(*case)).to_le_bytes())
    })?;
    replay(rt, "sample_u8", |case: &[u8; 4]| {
        Some([clamping::sample_u8(i32::from_le_bytes(*case)).sample])
    })?;
    replay(rt, "sample_centered", |case: &[u8; 4]| {
        Some(clamping::sample_centered(i32::from_le_bytes(*case)).to_le_bytes())
    })?;
    replay(rt, "sample_12bit", |case: &[u8; 8]| {
        Some(clamping::sample_12bit(i64::from_le_bytes(*case)).to_le_bytes())
    })
}
