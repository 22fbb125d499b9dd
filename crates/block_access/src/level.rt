// A block of which DC alone is not zero, as flat blocks of a picture are: every column and row takes its zero shortcut (idct.rs,
// `islow_block_rows`), so that one sample stands in each place (`level-block` of block/proofs/Level.antt). The test is one `|` over the
// other numbers, several of them at once.
ghost use Rattle.std.specs.Prelude.{◌≡◌, ◌*◌, ◌≤◌, length};
ghost use Rattle.lists.specs.Tab.{tab};
ghost use Rattle.clamping.specs.Clamping.{sample_u8};
ghost use Rattle.clamping.specs.Rule.{rule_u8};
ghost use Rattle.clamping.specs.Counts.{tally_one};
ghost use Rattle.block.specs.Level.{level, zeros};

use crate::number::Number;
use clamping::sample_u8;
use clamping::tally::tally_i32;
use passes::zero_shortcut::{DC_GAIN, DC_SHIFT};
use scaling::descale_by;
use wrapping::Wrapping;

// Whether all numbers are zero. No branch for each, so that the compiler tests several at once.
pub fn all_zero<T: Number>(values: &[T]) -> bool
    ensures { result ≡ zeros (T.values values.now) }
{
    let mut bits = T::zero();
    for x in values {
        bits = x.or(bits);
    }
    bits.widen() == 0
}

// The samples of such a block; the answer has both counts in one number (`tally_one`).
pub fn put_level(output: &mut [u8], dc: i32) -> u32
    requires { length output.old ≤ 64 }
    ensures value { result ≡ length output.old * tally_one (rule_u8 (level dc)) }
    ensures output_after { output.new ≡ tab (length output.old) (λ _. sample_u8 (level dc)) }
{
    let value = descale_by(dc.times(DC_GAIN), DC_SHIFT);
    let sample = sample_u8(value).sample;
    output.fill(sample);
    (output.len() as u32) * tally_i32(value)
}
