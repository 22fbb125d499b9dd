// The canonical entry of 12-bit blocks (document 02, card 8): samples 0..4095 less 2048, quantizers of 16 bits. A coefficient is at most
// 2^14 in absolute value (`coefficients-small` of crate forward), so 16 bits hold it.
ghost use Rattle.std.specs.Prelude.{◌≡◌, length};
ghost use Rattle.refusals.specs.Refusals.{status, written};
ghost use Rattle.refusals.specs.Numbers.{status_of};
ghost use Rattle.forward.specs.Canonical.{coefficients12bit, up_to, tests12bit};

use crate::write_centred;
use refusals::Refusal;

// Whether no sample is above 4095. No branch for each, so that the compiler tests many at once.
pub fn is_12bit(block: &[u16]) -> bool
    requires { length block.now ≡ 64 }
    ensures { result ≡ up_to 4095 block.now }
{
    let mut all = true;
    for i in 0..64 {
        all = (block[i] <= 4095) & all;
    }
    all
}

#[tactic(auto, unfolding(refusals::specs::Refusals::status, refusals::specs::Refusals::written))]
pub fn fdct_quantize_12bit(block: &[u16], quant: &[u16], out: &mut [i16]) -> Result<(), Refusal>
    ensures value { status_of result ≡ status (tests12bit block.now quant.now out.old) }
    ensures out_after { out.new ≡ written (status_of result) (coefficients12bit block.now quant.now) out.old }
{
    let block: &[u16; 64] = block.try_into().map_err(|_| Refusal::Block)?;
    let quant = quant.try_into().map_err(|_| Refusal::Table)?;
    Refusal::Output.unless(out.len() == 64)?;
    Refusal::Sample.unless(is_12bit(block))?;
    write_centred(block, 2048, quant, out);
    Ok(())
}
