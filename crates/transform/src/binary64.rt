// What the guarded quantizer asks of an f64 (transform.rs, `fdct_quantize`; document 01, "The guarded quantizer"), worked out from its
// bits, at every value: NaNs, infinities, zeros and subnormals too.
//
// With the exponent field e, from 1 to 2046, and the lower 52 bits t, the absolute value of q is d·2^(e - 1075) where d = 2^52 + t. A field 0 is
// smaller than every value that matters here, and a field 2047 is an infinity or a NaN. Only `q != q` compares floats.
ghost use Rattle.std.specs.Prelude.{◌≡◌};
ghost use Rattle.std.specs.Int.{w16};
ghost use Rattle.std.proofs.Common.{SFits};
ghost use Rattle.guarded_quantizer.specs.Binary64.{near_half, rounded_to_i16};

// `(q.abs().fract() - 0.5).abs() < 1.0 / 524_288.0`.
//
// The Rust's steps round nowhere that matters. `fract` is q less its whole part, which is exact. With the fraction in 1/4..1 the
// difference to 0.5 is exact (Sterbenz), and a fraction below 1/4 gives -0.25 at most, rounded or not. 2^-19 is a float. The fraction of
// an infinity and of a NaN is a NaN, and a comparison with that is false.
pub fn near_half(q: f64) -> bool
    ensures { result ≡ near_half q }
{
    if q != q {
        return false;
    }
    let bits: u64 = f64::to_bits(q);
    let e: u64 = bits % 0x8000_0000_0000_0000 / 0x10_0000_0000_0000;
    // below 1/4
    if e < 1021 {
        return false;
    }
    // whole, or infinite
    if 1075 < e {
        return false;
    }
    let d: u64 = 0x10_0000_0000_0000 + bits % 0x10_0000_0000_0000;
    // the fraction is f / 2^54
    let f: u64 = (d << (e - 1021)) % 0x40_0000_0000_0000;
    // 2^53 - 2^35 and 2^53 + 2^35
    if f <= 0x1f_fff8_0000_0000 {
        return false;
    }
    f < 0x20_0008_0000_0000
}

// `q.round() as i16`.
pub fn round_to_i16(q: f64) -> i16
    ensures value { result ≡ rounded_to_i16 q }
    ensures sfits { SFits w16 result }
{
    if q != q {
        return 0;
    }
    let bits: u64 = f64::to_bits(q);
    let e: u64 = bits % 0x8000_0000_0000_0000 / 0x10_0000_0000_0000;
    // below 1/2
    if e < 1022 {
        return 0;
    }
    // from 2^15 on
    if 1037 < e {
        if bits < 0x8000_0000_0000_0000 {
            return 32767;
        }
        return -32768;
    }
    let d: u64 = 0x10_0000_0000_0000 + bits % 0x10_0000_0000_0000;
    // the whole part of 2|q|, then that of |q| + 1/2: from 1 to 32768
    let n: u64 = ((d >> (1074 - e)) + 1) / 2;
    let capped: u64 = if n < 32768 { n } else { 32767 };
    if bits < 0x8000_0000_0000_0000 {
        return capped as i16;
    }
    -1 - ((n - 1) as i16)
}
