// The second half: a block, a table, and the sample that comes back at one place.
use crate::found::{BLOCK, BLOCK_TABLE, X, Y};
use basis::basis_table;
use round_trip::round_trip;
use std::io;

const PLACE: usize = 8 * Y + X;

// Where the basis integers of a frequency hold that of the place, whose row is mirrored: leaf 3,
// without its sign.
const ENTRY: usize = 4 * (7 - Y) + X;

// 2^34 and the sum of d(n) times the absolute value of the basis integer for n at (X, Y). The sum
// does not reach 2^53, so nothing wraps.
fn weighted_basis(quant: &[u8; 64]) -> u64 {
    let table = basis_table();
    let entries = table.as_chunks::<16>().0;
    quant
        .iter()
        .zip(entries)
        .fold(0x4_0000_0000, |total: u64, (d, entry)| {
            let weight = u64::from(entry[ENTRY].unsigned_abs());
            total.wrapping_add(u64::from(*d).wrapping_mul(weight))
        })
}

// The block's coefficients, dequantized and handed to the inverse: the sample that comes back. A
// refusal leaves 0.
fn sample_back(block: &[u8; 64], quant: &[u8; 64]) -> u8 {
    let mut samples = [0u8; 64];
    let _ = round_trip(
        block,
        block,
        quant,
        &mut [0; 64],
        &mut [0; 64],
        &mut [0; 64],
        &mut samples,
        &mut [0; 64],
        &mut [0; 64],
    );
    samples[PLACE]
}

// Apart from `report`, whose proof alone carries the tables.
fn compared(rt: &impl Print, block: &[u8; 64], quant: &[u8; 64]) -> io::Result<()> {
    let sample = block[PLACE];
    let back = sample_back(block, quant);
    let difference = 0x2_0000_0000 * u64::from(sample.abs_diff(back));
    let weighted = weighted_basis(quant);
    print!(rt; "\nplace ({X}, {Y}): sample {sample} comes back as {back}")?;
    print!(rt; "; 2^33 times their difference {difference}")?;
    print!(rt; ", 2^34 and the weighted basis {weighted}")
}

pub fn report(rt: &impl Print) -> io::Result<()> {
    compared(rt, &BLOCK, &BLOCK_TABLE)
}
