// Prints T.81's table K.1 (luminance) by percent (document 02, card 6): at 1, 50, 100 and 200 percent
// the 64 divisors, eight lines, one for each v, eight numbers by rising u; at 0 and 201 percent the
// refusal. What cannot be written is left out: the exit status is 0 all the same.

#![tactic(auto)]

use percent::percent_table;
use std::io;

const K1: [u8; 64] = [
    16, 11, 10, 16, 24, 40, 51, 61, 12, 12, 14, 19, 26, 58, 60, 55, 14, 13, 16, 24, 40, 57, 69, 56,
    14, 17, 22, 29, 51, 87, 80, 62, 18, 22, 37, 56, 68, 109, 103, 77, 24, 35, 55, 64, 81, 104, 113,
    92, 49, 64, 78, 87, 103, 121, 120, 101, 72, 92, 95, 98, 112, 100, 103, 99,
];

fn print_divisors(rt: &impl Print, table: &[u8; 64]) -> io::Result<()> {
    for (n, divisor) in table.iter().enumerate() {
        let separator = if n % 8 == 0 { "\n" } else { " " };
        print!(rt; "{separator}{divisor}")?;
    }
    Ok(())
}

fn print_table(rt: &impl Print, base: &[u8; 64], percent: u32) -> io::Result<()> {
    print!(rt; "percent {percent}")?;
    let mut table = [0u8; 64];
    match percent_table(base, percent, &mut table) {
        Ok(()) => print_divisors(rt, &table)?,
        Err(refusal) => print!(rt; ": {refusal}")?,
    }
    println!(rt)
}

// Apart from `main`, whose proof alone carries the table.
fn print_tables(rt: &impl Print, base: &[u8; 64]) -> io::Result<()> {
    for percent in [0, 1, 50, 100, 200, 201] {
        print_table(rt, base, percent)?;
    }
    Ok(())
}

fn main(rt: HostRuntime) {
    let _ = print_tables(&rt, &K1);
}
