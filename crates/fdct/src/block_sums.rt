// The 64 sums S of an 8-bit block, which no quantizer has a part in (document 02, card 12: a plane coded under many tables).
ghost use Rattle.std.specs.Prelude.{◌≡◌, ℕ, ◌^◌, ◌≤◌, length, get_or, pos, nat_abs};
ghost use Rattle.lists.specs.Tab.{tab};
ghost use Rattle.forward.specs.Forward.{scaled_sum};

use crate::{level_shift, widen};

pub fn scaled_sums(block: &[u8]) -> [i64; 64]
    requires { length block.now ≡ 64 }
    ensures value { result ≡ tab 64 (scaled_sum 128 block.now) }
    ensures by_index { (n : ℕ) → nat_abs (get_or result n (pos 0)) ≤ 2 ^ 46 }
{
    let samples = level_shift(&widen(block), 128);
    fdct_block::block_sums::scaled_sums(&samples)
}
