// Canonical quantizing in the order of T.81 A.3.4 (fdct.rs, `quantize`; document 01, leaf 4): form the divisor d·2^32, divide |S| by it,
// round by the remainder, and give the result the sign of S.
//
// |S| is at most 2^42 for 8-bit samples and 2^46 for 12-bit ones, and the divisor below 2^48 for any 16-bit quantizer, so 64 bits hold
// every number on the way.

#![tactic(auto)]

ghost use Rattle.std.specs.Prelude.{◌≡◌, cond, ◌+◌, ◌*◌, ◌%◌, ◌<◌, ◌≤◌, ◌^◌, leb, nat_abs};
ghost use Rattle.quantize.specs.Quantize.{divisor_of, with_sign, coefficient};

#[derive(Clone, Copy)]
struct Division {
    quotient: u32,
    remainder: u64,
}

// A zero quantizer, which T.81 forbids, divides by one.
pub fn divisor(quantizer: u16) -> u32
    ensures { result ≡ divisor_of quantizer }
{
    u32::from(quantizer.max(1))
}

fn scaled_divisor(quantizer: u16) -> u64
    ensures value { result ≡ divisor_of quantizer * 2 ^ 32 }
    ensures result_nonzero { (0 < result) × (result < 2 ^ 48) }
{
    (divisor(quantizer) as u64) * 0x1_0000_0000
}

// The divisor's low 32 bits are zero: floor(a / (d·2^32)) = floor(floor(a / 2^32) / d), one division of 32 bits. One of 64 takes several
// times as long on older processors.
fn divide(size: u64, divisor: u64) -> Division
    requires size_bound { size ≤ 2 ^ 46 }
    requires divisor_nonzero { (0 < divisor) × (divisor < 2 ^ 48) × (divisor % 2 ^ 32 ≡ 0) }
    ensures remainder_value { result.quotient * divisor + result.remainder ≡ size }
    ensures remainder_lt_divisor { result.remainder < divisor }
{
    let quotient = ((size / 0x1_0000_0000) as u32) / ((divisor / 0x1_0000_0000) as u32);
    Division {
        quotient,
        remainder: size - (quotient as u64) * divisor,
    }
}

// One more exactly when twice the remainder reaches the divisor.
fn round_by_remainder(division: Division, divisor: u64) -> u32
    requires { (division.quotient < 2 ^ 15) × (division.remainder < 2 ^ 48) }
    ensures { result ≡ division.quotient + cond (leb divisor (2 * division.remainder)) 1 0 }
{
    division.quotient + u32::from(2 * division.remainder >= divisor)
}

fn with_sign(scaled: i64, size: u32) -> i16
    requires { size < 2 ^ 15 }
    ensures { result ≡ with_sign scaled size }
{
    let value = size as i16;
    if scaled < 0 { -value } else { value }
}

pub fn quantize(scaled: i64, quantizer: u16) -> i16
    requires { nat_abs scaled ≤ 2 ^ 46 }
    ensures value { result ≡ coefficient scaled quantizer }
    ensures result_bound { nat_abs result < 2 ^ 15 }
{
    let divisor = scaled_divisor(quantizer);
    let division = divide(scaled.unsigned_abs(), divisor);
    let size = round_by_remainder(division, divisor);
    with_sign(scaled, size)
}
