// Reads a grey picture (Netpbm PGM, P5 with maxval 255) from standard input and prints, for squared
// errors of 0, 1, 4, 16, 64 and 256 a sample, which percent of T.81's table K.1 (luminance) keeps
// within that error with the fewest nonzero coefficients, of 200 tried (document 02, card 12).
//
// The picture is held whole, so it has at most as many bytes as `ROOM`, header and all; of a larger
// one, or a raster that is too short, it says `refused 10` on standard error, and `refused 8` of
// another width or height. A failed read counts as the end of the input. What cannot be written is
// left out: the exit status is 0 all the same.

#![tactic(auto)]

ghost use Rattle.std.specs.Prelude.{◌≤◌};

use fewest::{Fewest, fewest_coefficients};
use pgm::{Header, header_of};
use refusals::Refusal;
use std::io;
use streams::read_full;

const ROOM: usize = 131072;

const K1: [u8; 64] = [
    16, 11, 10, 16, 24, 40, 51, 61, 12, 12, 14, 19, 26, 58, 60, 55, 14, 13, 16, 24, 40, 57, 69, 56,
    14, 17, 22, 29, 51, 87, 80, 62, 18, 22, 37, 56, 68, 109, 103, 77, 24, 35, 55, 64, 81, 104, 113,
    92, 49, 64, 78, 87, 103, 121, 120, 101, 72, 92, 95, 98, 112, 100, 103, 99,
];

fn refuse(rt: &impl Eprint, refusal: Refusal) -> io::Result<()> {
    eprintln!(rt; "{refusal}")
}

// What is found for a squared error of `mean` a sample.
fn show(
    rt: &impl Print,
    samples: &[u8],
    width: usize,
    height: usize,
    base: &[u8; 64],
    mean: u32,
) -> io::Result<()>
    requires { (width ≤ 4096) × (height ≤ 4096) }
{
    let limit = u64::from(mean) * (width * height) as u64;
    let none = Fewest {
        found: None,
        off: 0,
        trials: 0,
    };
    let Fewest { found, off, trials } = fewest_coefficients(
        samples, width, height, base, limit, 200,
    ).unwrap_or(none);
    print!(rt; "squared error {limit}")?;
    match found {
        None => print!(rt; ": none tried is good")?,
        Some(percent) => print!(rt; ": {percent} percent, off by at most {off}")?,
    }
    println!(rt; ", tried {trials}")
}

fn show_picture(rt: &(impl Print + Eprint), bytes: &[u8], base: &[u8; 64]) -> io::Result<()> {
    match header_of(bytes) {
        Ok(
            Header {
                width,
                height,
                length,
            },
        ) => {
            let end = length + width * height;
            if bytes.len() < end {
                return refuse(rt, Refusal::Picture);
            }
            for mean in [0, 1, 4, 16, 64, 256] {
                show(rt, &bytes[length..end], width, height, base, mean)?;
            }
            Ok(())
        }
        Err(refusal) => refuse(rt, refusal),
    }
}

fn main(rt: HostRuntime) {
    let mut bytes = [0u8; ROOM];
    let n = read_full(&mut rt.reader(), &mut bytes);
    let _ = show_picture(&rt, &bytes[..n], &K1);
}
