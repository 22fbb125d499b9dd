// The step for one parity of (u, v) of the canonical transform (fdct.rs; document 01, leaf 4; document 02, card 5; T.81 A.3.3 and A.3.4).
ghost use Rattle.std.specs.Prelude.{◌≡◌, ◌<◌, length, get_or, set};
ghost use Rattle.fdct_block.specs.Ready.{Centred, Ready};
ghost use Rattle.quantize.specs.Quantize.{coefficient};
ghost use Rattle.forward.specs.Parity.{fold_sum, folded_quadrant, parity_written};

use crate::folds::fold;
use crate::sums::quantized;

// The coefficient of frequency n, by its fold, at its place. What it asks holds after it too, for the next call.
fn write_at(f: &[i16; 16], quant: &[u16; 64], out: &mut [i16], n: usize)
    requires ready { Ready f.now out.old }
    requires n_bound { n < 64 }
    ensures out_after { out.new ≡ set out.old n (coefficient (fold_sum f.now n) (get_or quant.now n 0)) }
    ensures ready_2 { Ready f.now out.new }
{
    out[n] = quantized(f, quant[n], n);
}

// Fills the caller's 16 places with the folded quadrant of the parity U of u and V of v, writes that
// parity's 16 coefficients, each a sum of the quadrant against the basis, divided and rounded, and
// keeps the other 48 places. The frequencies are written out, and the parities are constants: the
// compiler then puts each call of `write_at` in its place and makes immediates of the basis.
pub fn write_parity<const U: usize, const V: usize>(
    samples: &[i16; 64],
    quant: &[u16; 64],
    quadrant: &mut [i16; 16],
    out: &mut [i16],
)
    requires centred { Centred samples.now }
    requires parity { (U < 2) × (V < 2) }
    requires out_len { length out.old ≡ 64 }
    ensures quadrant_after { quadrant.new ≡ folded_quadrant samples.now U V }
    ensures out_after { out.new ≡ parity_written samples.now quant.now U V out.old }
{
    fold(samples, U, V, quadrant);
    let f = &*quadrant;
    let n = 8 * V + U;
    write_at(f, quant, out, n);
    write_at(f, quant, out, n + 2);
    write_at(f, quant, out, n + 4);
    write_at(f, quant, out, n + 6);
    write_at(f, quant, out, n + 16);
    write_at(f, quant, out, n + 18);
    write_at(f, quant, out, n + 20);
    write_at(f, quant, out, n + 22);
    write_at(f, quant, out, n + 32);
    write_at(f, quant, out, n + 34);
    write_at(f, quant, out, n + 36);
    write_at(f, quant, out, n + 38);
    write_at(f, quant, out, n + 48);
    write_at(f, quant, out, n + 50);
    write_at(f, quant, out, n + 52);
    write_at(f, quant, out, n + 54);
}
