// The wrapping operations: a, b; the answer.
use crate::file::replay;
use crate::numbers::numbers;
use std::io;
use std::rt::Files;
use wrapping::Wrapping;

// form kept, here and in the next: the bound of a closure cannot name a const parameter, so one
// function for both widths needs a trait with an impl for each, and is no shorter.
fn replay_i32<F: Fn(i32, i32) -> i32>(
    rt: &(impl Files + Print + Eprint + Alloc),
    name: &str,
    call: F,
) -> io::Result<()>
    requires { F.IsAlwaysCallable call }
{
    replay(rt, name, |case: &[u8; 8]| {
        let [a, b]: [i32; 2] = numbers(case.as_chunks().0, i32::from_le_bytes);
        Some(call(a, b).to_le_bytes())
    })
}

fn replay_i64<F: Fn(i64, i64) -> i64>(
    rt: &(impl Files + Print + Eprint + Alloc),
    name: &str,
    call: F,
) -> io::Result<()>
    requires { F.IsAlwaysCallable call }
{
    replay(rt, name, |case: &[u8; 16]| {
        let [a, b]: [i64; 2] = numbers(case.as_chunks().0, i64::from_le_bytes);
        Some(call(a, b).to_le_bytes())
    })
}

pub fn replay_all(rt: &(impl Files + Print + Eprint + Alloc)) -> io::Result<()> {
    replay_i32(rt, "wrapping_add_i32", <i32 as Wrapping>::add)?;
    replay_i32(rt, "wrapping_sub_i32", <i32 as Wrapping>::sub)?;
    replay_i32(rt, "wrapping_mul_i32", <i32 as Wrapping>::mul)?;
    replay_i64(rt, "wrapping_add_i64", <i64 as Wrapping>::add)?;
    replay_i64(rt, "wrapping_sub_i64", <i64 as Wrapping>::sub)?;
    replay_i64(rt, "wrapping_mul_i64", <i64 as Wrapping>::mul)
}
