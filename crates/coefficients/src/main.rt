// Reads a grey picture of 8 × 8 samples (Netpbm PGM) from standard input, and prints its canonical
// coefficients for quantizer 1, or `refused 7` (document 01, "Added by design"). Where its text cannot
// be written, it says why on standard error, and its exit status is 0 all the same.

#![tactic(auto)]

use coefficient_text::{TEXT, coefficient_text};
use std::io;
use streams::{fail, read_full};

// One byte more than what is accepted: longer input shows in it, however long it is.
const ROOM: usize = 76;

fn main(rt: HostRuntime) -> io::Result<()> {
    let mut input = [0u8; ROOM];
    let got = read_full(&mut rt.reader(), &mut input);
    let mut text = [0u8; TEXT];
    let count = coefficient_text(&input[..got], &mut text).unwrap_or(0);
    rt.write_all(&text[..count])
        .or_else(|error| fail(&rt, "coefficients: standard output", &error))
}
