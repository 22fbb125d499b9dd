// Prints what the exported functions give at known places, one fact a line: the ends of what a
// function takes, refusals, and the differences from the Rust. The cases of a function are the
// lines of its file in data/.

#![tactic(auto)]

mod call;
mod case;
mod show;

use crate::call::{deep, narrow, wide};
use crate::case::Case;
use std::fs::File;
use std::io;
use std::rt::Files;
use streams::{fail, read_full};

// The most bytes that are read of a file.
const CASES: usize = 4096;

// A line that starts with # says why cases are there.
fn run_each<F: Fn(&Case) -> io::Result<()>>(
    rt: &impl Print,
    name: &str,
    lines: &[u8],
    call: &F,
) -> io::Result<()>
    requires { F.IsAlwaysCallable call.now }
{
    for line in lines.split(|byte| *byte == b'\n') {
        if line.is_empty() || line.starts_with(b"#") {
            continue;
        }
        print!(rt; "{name} ")?;
        rt.write_all(line)?;
        call(&Case::new(line))?;
        println!(rt)?;
    }
    Ok(())
}

// The file of a function has its name. Where it cannot be read there are no cases.
fn run_file<F: Fn(&Case) -> io::Result<()>>(
    rt: &(impl Files + Print + Eprint + Alloc),
    name: &str,
    call: F,
) -> io::Result<()>
    requires { F.IsAlwaysCallable call }
{
    let mut lines = [0u8; CASES];
    match File::open(rt, name) {
        Ok(mut file) => {
            let got = read_full(&mut file, &mut lines);
            run_each(rt, name, &lines[..got], &call)
        }
        Err(error) => fail(rt, name, &error),
    }
}

// Each file, and what shows a case of its function.
fn run_all(rt: &(impl Files + Print + Eprint + Alloc)) -> io::Result<()> {
    run_file(rt, "descale", |case| crate::call::descale(rt, case))?;
    run_file(rt, "sample_u8", |case| crate::call::sample_u8(rt, case))?;
    run_file(
        rt,
        "sample_12bit",
        |case| crate::call::sample_12bit(rt, case),
    )?;
    run_file(
        rt,
        "islow_gain_bounds",
        |_| crate::call::islow_gain_bounds(rt),
    )?;
    run_file(
        rt,
        "islow_block",
        |case| narrow(rt, case, idct_8x8::islow_block),
    )?;
    run_file(
        rt,
        "islow_block_top_half",
        |case| narrow(rt, case, idct_8x8::islow_block_top_half),
    )?;
    run_file(
        rt,
        "islow_block_4x4",
        |case| narrow(rt, case, idct_reduced::islow_block_4x4),
    )?;
    run_file(
        rt,
        "islow_block_2x2",
        |case| narrow(rt, case, idct_reduced::islow_block_2x2),
    )?;
    run_file(
        rt,
        "islow_block_12bit",
        |case| deep(rt, case, idct_12bit::islow_block_12bit),
    )?;
    run_file(
        rt,
        "islow_block_12bit_4x4",
        |case| deep(rt, case, idct_12bit::islow_block_12bit_4x4),
    )?;
    run_file(
        rt,
        "islow_block_12bit_2x2",
        |case| deep(rt, case, idct_12bit::islow_block_12bit_2x2),
    )?;
    run_file(
        rt,
        "islow_block_i32",
        |case| wide(rt, case, idct_8x8::islow_block_i32),
    )?;
    run_file(
        rt,
        "islow_block_top_half_i32",
        |case| wide(rt, case, idct_8x8::islow_block_top_half_i32),
    )?;
    run_file(
        rt,
        "fdct_quantize",
        |case| crate::call::fdct_quantize(rt, case),
    )?;
    run_file(
        rt,
        "fdct_quantize_coefficient",
        |case| crate::call::fdct_quantize_coefficient(rt, case),
    )?;
    run_file(
        rt,
        "transform_fdct_quantize",
        |case| crate::call::transform_fdct_quantize(rt, case),
    )?;
    run_file(
        rt,
        "quantization_divisors",
        |case| crate::call::quantization_divisors(rt, case),
    )?;
    run_file(rt, "dequantize", |case| crate::call::dequantize(rt, case))?;
    run_file(rt, "screen", |case| crate::call::screen(rt, case))?;
    run_file(rt, "same", |case| crate::call::same(rt, case))
}

fn main(rt: HostRuntime) -> io::Result<()> {
    run_all(&rt)
}
