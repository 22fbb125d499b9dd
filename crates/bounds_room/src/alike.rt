// Two blocks, one table, and the same 64 coefficients: the first half, of 8 bits, and document 02,
// card 8, of 12.
use crate::found::{FIRST, SECOND, TABLE};
use crate::found_12bit;
use round_trip::round_trip;
use round_trip::twelve_bit::compare_12bit;
use std::io;

// The sum of the squares of the differences. No sum here reaches 2^53, so nothing wraps.
fn squared_differences<T: Copy + Into<u64>>(a: &[T; 64], b: &[T; 64]) -> u64 {
    a.iter().zip(b).fold(0u64, |total, (x, y)| {
        let x: u64 = (*x).into();
        let difference = x.abs_diff((*y).into());
        total.wrapping_add(difference.wrapping_mul(difference))
    })
}

fn same_coefficients(a: &[u8; 64], b: &[u8; 64], quant: &[u8; 64]) -> bool {
    round_trip(
        a,
        b,
        quant,
        &mut [0; 64],
        &mut [0; 64],
        &mut [0; 64],
        &mut [0; 64],
        &mut [0; 64],
        &mut [0; 64],
    )
    .unwrap_or(false)
}

fn same_coefficients_12bit(a: &[u16; 64], b: &[u16; 64], quant: &[u16; 64]) -> bool {
    compare_12bit(a, b, quant, &mut [0; 64], &mut [0; 64]).unwrap_or(false)
}

// Blocks whose coefficients differ say nothing of the bound: no line. Apart from `report`, whose
// proof alone carries the tables.
fn compared(rt: &impl Print, a: &[u8; 64], b: &[u8; 64], quant: &[u8; 64]) -> io::Result<()> {
    if same_coefficients(a, b, quant) {
        let differences = squared_differences(a, b);
        let divisors = squared_differences(quant, &[0; 64]);
        print!(rt; "equal coefficients: yes; squared differences {differences}")?;
        print!(rt; ", squared divisors {divisors}")?;
    }
    Ok(())
}

fn compared_12bit(
    rt: &impl Print,
    a: &[u16; 64],
    b: &[u16; 64],
    quant: &[u16; 64],
) -> io::Result<()> {
    if same_coefficients_12bit(a, b, quant) {
        let differences = squared_differences(a, b);
        let divisors = squared_differences(quant, &[0; 64]);
        let least = differences.wrapping_mul(0x7f_ffff);
        let most = divisors.wrapping_mul(0x80_0000);
        print!(rt; "\n12 bits, equal coefficients: yes; squared differences {differences}")?;
        print!(rt; ", squared divisors {divisors}")?;
        print!(rt; "; (2^23 - 1) times the one {least}, 2^23 times the other {most}")?;
    }
    Ok(())
}

pub fn report(rt: &impl Print) -> io::Result<()> {
    compared(rt, &FIRST, &SECOND, &TABLE)
}

pub fn report_12bit(rt: &impl Print) -> io::Result<()> {
    compared_12bit(
        rt,
        &found_12bit::FIRST,
        &found_12bit::SECOND,
        &found_12bit::TABLE,
    )
}
