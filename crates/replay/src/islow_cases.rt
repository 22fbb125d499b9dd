// The 1-D transforms and the passes: eight numbers; the answers.
use crate::file::{Part, replay};
use crate::numbers::{numbers, put_each};
use std::convert::AsSlice;
use std::io;
use std::rt::Files;

// form kept, here and in the next: the bound of a closure cannot name a const parameter, so one
// function for both widths needs a trait with an impl for each, and is no shorter.
fn replay_i32<O: Part, R: AsSlice<i32> + Drop, F: Fn([i32; 8]) -> R>(
    rt: &(impl Files + Print + Eprint + Alloc),
    name: &str,
    call: F,
) -> io::Result<()>
    requires { F.IsAlwaysCallable call }
{
    replay(rt, name, |case: &[u8; 32]| {
        let got = call(numbers(case.as_chunks().0, i32::from_le_bytes));
        let mut answer = O::default();
        put_each(
            answer.bytes_mut().as_chunks_mut().0,
            got.as_slice(),
            i32::to_le_bytes,
        );
        Some(answer)
    })
}

fn replay_i64<O: Part, R: AsSlice<i64> + Drop, F: Fn([i64; 8]) -> R>(
    rt: &(impl Files + Print + Eprint + Alloc),
    name: &str,
    call: F,
) -> io::Result<()>
    requires { F.IsAlwaysCallable call }
{
    replay(rt, name, |case: &[u8; 64]| {
        let got = call(numbers(case.as_chunks().0, i64::from_le_bytes));
        let mut answer = O::default();
        put_each(
            answer.bytes_mut().as_chunks_mut().0,
            got.as_slice(),
            i64::to_le_bytes,
        );
        Some(answer)
    })
}

pub fn replay_all(rt: &(impl Files + Print + Eprint + Alloc)) -> io::Result<()> {
    replay_i32::<[u8; 32], _, _>(rt, "islow_1d", |p| islow::islow_1d(p))?;
    replay_i32::<[u8; 16], _, _>(rt, "islow_1d_4", |p| islow::reduced::islow_1d_4(p))?;
    replay_i32::<[u8; 8], _, _>(rt, "islow_1d_2", |p| islow::reduced::islow_1d_2(p))?;
    replay(rt, "islow_gain_bounds", |_: &[u8; 0]| {
        let got = gains::islow_gain_bounds();
        let mut answer = [0u8; 8];
        put_each(
            answer.as_chunks_mut().0,
            &[got.max_gain, got.max_l1],
            i32::to_le_bytes,
        );
        Some(answer)
    })?;
    replay_i64::<[u8; 64], _, _>(rt, "islow_1d_i64", |p| islow::islow_1d(p))?;
    replay_i64::<[u8; 32], _, _>(rt, "islow_1d_4_i64", |p| islow::reduced::islow_1d_4(p))?;
    replay_i64::<[u8; 16], _, _>(rt, "islow_1d_2_i64", |p| islow::reduced::islow_1d_2(p))?;
    replay_i32::<[u8; 32], _, _>(rt, "islow_pass1", passes::islow_pass1)?;
    replay_i32::<[u8; 32], _, _>(rt, "islow_pass2", passes::islow_pass2)?;
    replay_i32::<[u8; 32], _, _>(rt, "islow_column", passes::zero_shortcut::islow_column)?;
    replay_i32::<[u8; 32], _, _>(rt, "islow_row", passes::zero_shortcut::islow_row)
}
