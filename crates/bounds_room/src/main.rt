// How much room the two bounds of demand 3 leave (document 01, "Demand 3 in numbers"): blocks and
// tables, found by search, that come near to each; and the bound of document 02, card 8, on two
// 12-bit blocks. Prints both sides of each bound. A write that fails is `main`'s error.

#![tactic(auto)]

mod alike;
mod found;
mod found_12bit;
mod near;

use std::io;

fn main(rt: HostRuntime) -> io::Result<()> {
    crate::alike::report(&rt)?;
    crate::near::report(&rt)?;
    crate::alike::report_12bit(&rt)?;
    println!(rt)
}
