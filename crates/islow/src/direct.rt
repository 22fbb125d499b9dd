// The 8-point ISLOW transform by direct products (idct.rs, `islow_1d`; document 01, leaf 2).
//
// Its contract is that of `islow_1d`: the rows of gains, scaled by 2^CONST_BITS, wrapped. Each output is a sum of direct products of the
// gains: over a loop of columns of 16-bit numbers the compiler makes one instruction of two products, which it cannot of sums.
ghost use Rattle.std.specs.Prelude.{◌≡◌, ◌+ℤ◌, ◌*ℤ◌, map};
ghost use Rattle.integers.specs.Wrap.{wrap};
ghost use Rattle.integers.specs.Linear.{transform};
ghost use Rattle.gains.specs.Gains.{gains};

use wrapping::Wrapping;

// x·j + y·k.
fn mul2<T: Wrapping>(x: T, j: i32, y: T, k: i32) -> T
    ensures { T.value result ≡ wrap T.width (T.value x *ℤ j +ℤ T.value y *ℤ k) }
{
    x.times(j).add(y.times(k))
}

// `islow_1d` by direct products.
pub fn islow_1d_direct<T: Wrapping>(p: [T; 8]) -> [T; 8]
    ensures { map T.value result ≡ transform T.width gains (map T.value p) }
{
    let [p0, p1, p2, p3, p4, p5, p6, p7] = p;
    let tmp0 = mul2(p0, 8192, p4, 8192);
    let tmp1 = mul2(p0, 8192, p4, -8192);
    let tmp2 = mul2(p2, 4433, p6, -10704);
    let tmp3 = mul2(p2, 10703, p6, 4433);
    let tmp10 = tmp0.add(tmp3);
    let tmp13 = tmp0.sub(tmp3);
    let tmp11 = tmp1.add(tmp2);
    let tmp12 = tmp1.sub(tmp2);
    let odd0 = mul2(p1, 11363, p3, 9633).add(mul2(p5, 6437, p7, 2260));
    let odd1 = mul2(p1, 9633, p3, -2259).add(mul2(p5, -11362, p7, -6436));
    let odd2 = mul2(p1, 6437, p3, -11362).add(mul2(p5, 2261, p7, 9633));
    let odd3 = mul2(p1, 2260, p3, -6436).add(mul2(p5, 9633, p7, -11363));
    [
        tmp10.add(odd0),
        tmp11.add(odd1),
        tmp12.add(odd2),
        tmp13.add(odd3),
        tmp13.sub(odd3),
        tmp12.sub(odd2),
        tmp11.sub(odd1),
        tmp10.sub(odd0),
    ]
}
