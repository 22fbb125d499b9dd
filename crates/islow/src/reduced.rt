// The 4- and the 2-point reduced 1-D ISLOW transform in wrapping arithmetic (idct.rs, `islow_butterflies!`; document 01, leaf 2).
//
// The steps are those of libjpeg's jidctred.c; outputs are scaled by 2^(CONST_BITS + 1) for 4 points, 2^(CONST_BITS + 2) for 2. Each
// output is a linear form of p modulo 2^32 or 2^64, as in the 8-point transform. At 64 bits 16-bit input, and what a column pass makes
// of it, never wraps (`exact-four`, `Exact-two` of block/proofs/Exact.antt).
ghost use Rattle.std.specs.Prelude.{◌≡◌, map};
ghost use Rattle.integers.specs.Linear.{transform};
ghost use Rattle.gains.specs.Gains.{gains4, gains2};

use gains::{
    FIX_0_211164243, FIX_0_509795579, FIX_0_601344887, FIX_0_720959822, FIX_0_765366865,
    FIX_0_850430095, FIX_0_899976223, FIX_1_061594337, FIX_1_272758580, FIX_1_451774981,
    FIX_1_847759065, FIX_2, FIX_2_172734803, FIX_2_562915447, FIX_3_624509785, FIX_4,
};
use wrapping::Wrapping;

// The 4-point reduced transform (jpeg_idct_4x4 in jidctred.c). It does not read p[4].
pub fn islow_1d_4<T: Wrapping>(p: [T; 8]) -> [T; 4]
    ensures { map T.value result ≡ transform T.width gains4 (map T.value p) }
{
    let [p0, p1, p2, p3, _, p5, p6, p7] = p;
    let tmp0 = p0.times(FIX_2);
    let tmp2 = p2.times(FIX_1_847759065).add(p6.times(-FIX_0_765366865));
    let tmp10 = tmp0.add(tmp2);
    let tmp12 = tmp0.sub(tmp2);
    let tmp0 = p7
        .times(-FIX_0_211164243)
        .add(p5.times(FIX_1_451774981))
        .add(p3.times(-FIX_2_172734803))
        .add(p1.times(FIX_1_061594337));
    let tmp2 = p7
        .times(-FIX_0_509795579)
        .add(p5.times(-FIX_0_601344887))
        .add(p3.times(FIX_0_899976223))
        .add(p1.times(FIX_2_562915447));
    [
        tmp10.add(tmp2),
        tmp12.add(tmp0),
        tmp12.sub(tmp0),
        tmp10.sub(tmp2),
    ]
}

// The 2-point reduced transform (jpeg_idct_2x2 in jidctred.c). It does not read p[2], p[4] and p[6].
pub fn islow_1d_2<T: Wrapping>(p: [T; 8]) -> [T; 2]
    ensures { map T.value result ≡ transform T.width gains2 (map T.value p) }
{
    let [p0, p1, _, p3, _, p5, _, p7] = p;
    let tmp10 = p0.times(FIX_4);
    let tmp0 = p7
        .times(-FIX_0_720959822)
        .add(p5.times(FIX_0_850430095))
        .add(p3.times(-FIX_1_272758580))
        .add(p1.times(FIX_3_624509785));
    [tmp10.add(tmp0), tmp10.sub(tmp0)]
}
