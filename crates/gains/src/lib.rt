// The constants and the matrix of the ISLOW inverse DCT (idct.rs; document 01, leaf 2).
//
// A 1-D transform is a matrix of gains, in units of 2^-CONST_BITS for 8 points and of half and a quarter of that for 4 and 2.
// The matrices are in specs/; the law by which a butterfly's steps make up a matrix is in proofs/, over the width.

#![tactic(auto)]

ghost use Rattle.std.specs.Prelude.{◌≡◌};
ghost use Rattle.gains.specs.Gains.{gains};
ghost use Rattle.gains.specs.Bounds.{gain_bounds};

// Number of fractional bits in the constants below.
pub const CONST_BITS: usize = 13;

// Fraction bits that the 8-bit transform keeps between its passes.
pub const PASS1_BITS: usize = 2;

// 1, 2 and 4 in fixed point: a product by one of them is the Rust's shift by CONST_BITS, + 1 and + 2.
pub const FIX_1: i32 = 1 << CONST_BITS;

pub const FIX_2: i32 = 2 << CONST_BITS;

pub const FIX_4: i32 = 4 << CONST_BITS;

pub const FIX_0_298631336: i32 = 2_446;

pub const FIX_0_390180644: i32 = 3_196;

pub const FIX_0_541196100: i32 = 4_433;

pub const FIX_0_765366865: i32 = 6_270;

pub const FIX_0_899976223: i32 = 7_373;

pub const FIX_1_175875602: i32 = 9_633;

pub const FIX_1_501321110: i32 = 12_299;

pub const FIX_1_847759065: i32 = 15_137;

pub const FIX_1_961570560: i32 = 16_069;

pub const FIX_2_053119869: i32 = 16_819;

pub const FIX_2_562915447: i32 = 20_995;

pub const FIX_3_072711026: i32 = 25_172;

// Of the reduced sizes.
pub const FIX_0_211164243: i32 = 1_730;

pub const FIX_0_509795579: i32 = 4_176;

pub const FIX_0_601344887: i32 = 4_926;

pub const FIX_0_720959822: i32 = 5_906;

pub const FIX_0_850430095: i32 = 6_967;

pub const FIX_1_061594337: i32 = 8_697;

pub const FIX_1_272758580: i32 = 10_426;

pub const FIX_1_451774981: i32 = 11_893;

pub const FIX_2_172734803: i32 = 17_799;

pub const FIX_3_624509785: i32 = 29_692;

// The matrix of the 8-point transform: output j is the sum over k of ISLOW_GAINS[j][k]·p[k].
pub const ISLOW_GAINS: [[i32; 8]; 8] = [
    [8192, 11363, 10703, 9633, 8192, 6437, 4433, 2260],
    [8192, 9633, 4433, -2259, -8192, -11362, -10704, -6436],
    [8192, 6437, -4433, -11362, -8192, 2261, 10704, 9633],
    [8192, 2260, -10703, -6436, 8192, 9633, -4433, -11363],
    [8192, -2260, -10703, 6436, 8192, -9633, -4433, 11363],
    [8192, -6437, -4433, 11362, -8192, -2261, 10704, -9633],
    [8192, -9633, 4433, 2259, -8192, 11362, -10704, 6436],
    [8192, -11363, 10703, -9633, 8192, -6437, 4433, -2260],
];

// ISLOW_GAINS, as a value that a contract can speak of.
pub fn islow_gains() -> [[i32; 8]; 8]
    ensures { result ≡ gains }
{
    ISLOW_GAINS
}

#[derive(Clone, Copy)]
pub struct GainBounds {
    pub max_gain: i32,
    pub max_l1: i32,
}

// The largest absolute value of a gain, and the largest sum of the absolute values of one row.
pub fn islow_gain_bounds() -> GainBounds
    ensures { result ≡ gain_bounds }
{
    GainBounds {
        max_gain: 11_363,
        max_l1: 61_214,
    }
}
