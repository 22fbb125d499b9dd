// The 1-D forward transform of eight f64 (transform.rs, `fdct_8`; document 01, "The guarded quantizer").
//
// The transform of Arai, Agui and Nakajima has five products and leaves output u larger by 2√2·AAN_SCALE[u], which the divisors take
// off. Each operation is rounded once, in the Rust's order: the definition is the same operations of IEEE 754's binary64 in the
// same order.
ghost use Rattle.std.specs.Prelude.{◌≡◌};
ghost use Rattle.guarded_quantizer.specs.Transform.{fdct8};

// `core::f64::consts::FRAC_1_SQRT_2`.
const FRAC_1_SQRT_2: f64 = 0.707106781186547524400844362104849039;

pub fn fdct_8(input: [f64; 8]) -> [f64; 8]
    ensures { result ≡ fdct8 input }
{
    let sum0 = input[0] + input[7];
    let sum1 = input[1] + input[6];
    let sum2 = input[2] + input[5];
    let sum3 = input[3] + input[4];
    let diff0 = input[0] - input[7];
    let diff1 = input[1] - input[6];
    let diff2 = input[2] - input[5];
    let diff3 = input[3] - input[4];
    let outer = sum0 + sum3;
    let inner = sum1 + sum2;
    let even = sum0 - sum3;
    let rotation = (even + sum1 - sum2) * FRAC_1_SQRT_2;
    let left = diff3 + diff2;
    let right = diff1 + diff0;
    let cross = (left - right) * 0.382_683_432_365_089_8;
    let low = left * 0.541_196_100_146_197 + cross;
    let high = right * 1.306_562_964_876_376_6 + cross;
    let middle = (diff2 + diff1) * FRAC_1_SQRT_2;
    [
        outer + inner,
        diff0 + middle + high,
        even + rotation,
        diff0 - middle - low,
        outer - inner,
        diff0 - middle + low,
        even - rotation,
        diff0 + middle - high,
    ]
}
