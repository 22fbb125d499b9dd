// The 8-point 1-D ISLOW transform in wrapping arithmetic, at 32 bits and, for the 12-bit blocks, at 64 (idct.rs, `islow_butterflies!`;
// document 01, leaf 2). In `direct` the same by direct products, in `reduced` the 4- and the 2-point transform.
//
// The steps are those of libjpeg's jidctint.c, after Loeffler, Ligtenberg and Moschytz; outputs are scaled by 2^CONST_BITS. Only sums,
// differences and products by constants appear, each wrapping, so each output is a linear form of p modulo 2^32 or 2^64: a row of
// gains, whatever the order of the steps (integers/proofs/Linear.antt). A row's gains sum to at most 61214 in absolute value: of 16-bit
// numbers the outputs stay below 2^31, and are the exact sums (`wrap-dot` of integers/proofs/Bound.antt); at 64 bits what a column pass
// makes of these never wraps either (`exact-eight` of block/proofs/Exact.antt).

#![tactic(auto)]

pub mod direct;
pub mod reduced;

ghost use Rattle.std.specs.Prelude.{◌≡◌, map};
ghost use Rattle.integers.specs.Linear.{transform};
ghost use Rattle.gains.specs.Gains.{gains};

use gains::{
    FIX_0_298631336, FIX_0_390180644, FIX_0_541196100, FIX_0_765366865, FIX_0_899976223, FIX_1,
    FIX_1_175875602, FIX_1_501321110, FIX_1_847759065, FIX_1_961570560, FIX_2_053119869,
    FIX_2_562915447, FIX_3_072711026,
};
use wrapping::Wrapping;

// The 8-point transform (jidctint.c).
pub fn islow_1d<T: Wrapping>(p: [T; 8]) -> [T; 8]
    ensures { map T.value result ≡ transform T.width gains (map T.value p) }
{
    let [p0, p1, p2, p3, p4, p5, p6, p7] = p;
    // Even part: rotation of p2 and p6, and the butterfly of p0 and p4.
    let z1 = p2.add(p6).times(FIX_0_541196100);
    let tmp2 = z1.add(p6.times(-FIX_1_847759065));
    let tmp3 = z1.add(p2.times(FIX_0_765366865));
    let tmp0 = p0.add(p4).times(FIX_1);
    let tmp1 = p0.sub(p4).times(FIX_1);
    let tmp10 = tmp0.add(tmp3);
    let tmp13 = tmp0.sub(tmp3);
    let tmp11 = tmp1.add(tmp2);
    let tmp12 = tmp1.sub(tmp2);
    // Odd part: Chen-Wang rotations that share the products of z1..z5.
    let z1 = p7.add(p1);
    let z2 = p5.add(p3);
    let z3 = p7.add(p3);
    let z4 = p5.add(p1);
    let z5 = z3.add(z4).times(FIX_1_175875602);
    let z1 = z1.times(-FIX_0_899976223);
    let z2 = z2.times(-FIX_2_562915447);
    let z3 = z3.times(-FIX_1_961570560).add(z5);
    let z4 = z4.times(-FIX_0_390180644).add(z5);
    let tmp0 = p7.times(FIX_0_298631336).add(z1).add(z3);
    let tmp1 = p5.times(FIX_2_053119869).add(z2).add(z4);
    let tmp2 = p3.times(FIX_3_072711026).add(z2).add(z3);
    let tmp3 = p1.times(FIX_1_501321110).add(z1).add(z4);
    [
        tmp10.add(tmp3),
        tmp11.add(tmp2),
        tmp12.add(tmp1),
        tmp13.add(tmp0),
        tmp13.sub(tmp0),
        tmp12.sub(tmp1),
        tmp11.sub(tmp2),
        tmp10.sub(tmp3),
    ]
}
