// The canonical forward transform with quantizing of 12-bit blocks (crate fdct; document 02, card 8).
ghost use Rattle.std.specs.Prelude.{◌≡◌};
ghost use Rattle.refusals.specs.Refusals.{status, written};
ghost use Rattle.forward.specs.Canonical.{coefficients12bit, tests12bit};

use crate::place::status;
use fdct::twelve_bit::fdct_quantize_12bit;

#[unsafe(no_mangle)]
pub extern "C" fn jpeg_block_fdct_quantize_12bit(
    block: &[u16],
    quant: &[u16],
    out: &mut [i16],
) -> u32
    ensures value { result ≡ status (tests12bit block.now quant.now out.old) }
    ensures out_after { out.new ≡ written result (coefficients12bit block.now quant.now) out.old }
{
    status(fdct_quantize_12bit(block, quant, out))
}
