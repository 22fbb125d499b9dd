// Reads a grey picture (Netpbm PGM, P5 with maxval 255) from standard input, codes it with divisor
// 1, decodes it and writes it to standard output, one strip of eight rows at a time (document 02,
// card 2). A refusal goes to standard error as `refused` and its number. Where the picture cannot
// be written, it says why on standard error and ends, and its exit status is 0 all the same.
//
// The header is read byte by byte and each strip to its length, so no byte behind the raster is
// read. Of the picture no more than a strip is held.

#![tactic(auto)]

mod strip;

ghost use Rattle.std.specs.Prelude.{◌≡◌, List, ℕ, ◌*◌, ◌≤◌, ◌<◌, length};
ghost use Rattle.pgm.specs.Header.{header_of};
ghost use Rattle.pgm.specs.Reader.{told};
ghost use Rattle.plane.specs.Strips.{strip_rows};

use pgm::{Header, LIMIT, Reader, Step};
use refusals::Refusal;
use std::io;
use std::io::Read;
use streams::{fail, read_full};
use strip::recode_strip;

// Eight rows of the greatest width.
const STRIP: usize = 32768;

fn refuse(rt: &impl Eprint, refusal: Refusal) -> io::Result<()> {
    eprintln!(rt; "{refusal}")
}

// The answer to the bytes that were read, whatever they are; a failed read counts as the end. The
// loop is bounded by the limit, and the reader refuses at it.
fn read_header(input: &mut impl Read) -> Result<Header, Refusal>
    ensures { (input : List ℕ) × (told result ≡ header_of input) }
{
    let mut reader = Reader::new();
    for _ in 0..LIMIT {
        let mut byte = [0u8; 1];
        if read_full(input, &mut byte) == 0 {
            return Err(Refusal::Picture);
        }
        match reader.step(byte[0])? {
            Step::More(r) => reader = r,
            Step::Done(header) => return Ok(header),
        }
    }
    Err(Refusal::Picture)
}

// Reads a strip, recodes it and writes it. Where the raster ends before, it says so and answers
// false.
fn copy_strip(
    rt: &(impl Print + Eprint),
    input: &mut impl Read,
    width: usize,
    rows: usize,
) -> io::Result<bool>
    requires le_width { (1 ≤ width) × (width ≤ 4096) }
    requires le_rows { (1 ≤ rows) × (rows ≤ 8) }
{
    let n = width * rows;
    let mut samples = [0u8; STRIP];
    let mut out = [0u8; STRIP];
    if read_full(input, &mut samples[..n]) < n {
        refuse(rt, Refusal::Picture)?;
        return Ok(false);
    }
    recode_strip(&samples[..n], width, rows, &mut out[..n]);
    rt.write_all(&out[..n])?;
    Ok(true)
}

// The rows of strip s: the last strip may be lower.
#[tactic(auto, unfolding(plane::specs::Strips::strip_rows))]
fn strip_rows(height: usize, s: usize) -> usize
    requires { (8 * s < height) × (height ≤ 4096) }
    ensures value { result ≡ strip_rows height s }
    ensures lower_bound { (1 ≤ result) × (result ≤ 8) }
{
    let left = height - 8 * s;
    left.min(8)
}

fn copy_raster(
    rt: &(impl Print + Eprint),
    input: &mut impl Read,
    width: usize,
    height: usize,
) -> io::Result<()>
    requires le_width { (1 ≤ width) × (width ≤ 4096) }
    requires height_bound { height ≤ 4096 }
{
    for s in 0..(height + 7) / 8 {
        if !copy_strip(rt, input, width, strip_rows(height, s))? {
            break;
        }
    }
    Ok(())
}

// Of standard input. Its error is that of a write.
fn copy_picture(rt: &(impl Input + Print + Eprint)) -> io::Result<()> {
    let mut input = rt.reader();
    match read_header(&mut input) {
        Ok(
            Header {
                width,
                height,
                length: _,
            },
        ) => {
            println!(rt; "P5\n{width} {height}\n255")?;
            copy_raster(rt, &mut input, width, height)
        }
        Err(refusal) => refuse(rt, refusal),
    }
}

fn main(rt: HostRuntime) -> io::Result<()> {
    copy_picture(&rt).or_else(|error| fail(&rt, "recode_pgm: standard output", &error))
}
