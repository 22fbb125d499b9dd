// The canonical forward transform of samples less their centre, with quantizing (fdct.rs; document 01, leaf 4; document 02, card 5;
// T.81 A.3.3 and A.3.4).
//
// A block of centred samples folds into four quadrants of 16 numbers, one for each parity of (u, v), and each coefficient is a
// 16-term sum of one quadrant against the basis, the table of crate basis. One quadrant is held at a time, and its 16 coefficients are
// written before the next.

#![tactic(auto)]

pub mod block_sums;
mod folds;
mod parity;
mod sums;

ghost use Rattle.std.specs.Prelude.{◌≡◌, ◌^◌, ◌<◌, length, nat_abs};
ghost use Rattle.lists.specs.Tab.{tab};
ghost use Rattle.quantize.specs.Quantize.{coefficient};
ghost use Rattle.fdct_block.specs.Ready.{Centred};
ghost use Rattle.forward.specs.Forward.{centred_sum, quantized_sum};

use crate::folds::fold;
use crate::parity::write_parity;
use crate::sums::quantized;

// The 64 coefficients of a block in natural order, those of one parity of (u, v) after the other: the same 16 places hold the quadrant
// of each in turn. The output is a slice: of one converted to an array nothing is proved.
pub fn write_coefficients(samples: &[i16; 64], quant: &[u16; 64], out: &mut [i16])
    requires centred { Centred samples.now }
    requires out_len { length out.old ≡ 64 }
    ensures { out.new ≡ tab 64 (quantized_sum samples.now quant.now) }
{
    let mut quadrant = [0i16; 16];
    write_parity::<0, 0>(samples, quant, &mut quadrant, out);
    write_parity::<1, 0>(samples, quant, &mut quadrant, out);
    write_parity::<0, 1>(samples, quant, &mut quadrant, out);
    write_parity::<1, 1>(samples, quant, &mut quadrant, out);
}

// Coefficient n of a block, by the one quadrant and the one row of the basis that it needs.
pub fn coefficient_at(samples: &[i16; 64], quantizer: u16, n: usize) -> i16
    requires centred { Centred samples.now }
    requires n_bound { n < 64 }
    ensures value { result ≡ coefficient (centred_sum samples.now n) quantizer }
    ensures result_bound { nat_abs result < 2 ^ 15 }
{
    let mut quadrant = [0i16; 16];
    fold(samples, n % 8, n / 8, &mut quadrant);
    quantized(&quadrant, quantizer, n)
}
