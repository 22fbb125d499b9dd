// The 64 sums S of a block (document 01, leaf 4), without quantizing: for a caller that codes a block under many tables (document 02,
// card 12). A folded quadrant is held for one sum.
ghost use Rattle.std.specs.Prelude.{◌≡◌, ℕ, ◌^◌, ◌≤◌, ◌<◌, get_or, pos, nat_abs};
ghost use Rattle.lists.specs.Tab.{tab};
ghost use Rattle.fdct_block.specs.Ready.{Centred};
ghost use Rattle.forward.specs.Forward.{centred_sum};

use crate::folds::fold;
use crate::sums::scaled;
use std::array;

// The sum of frequency n, by the one quadrant that it needs.
fn scaled_sum(samples: &[i16; 64], n: usize) -> i64
    requires centred { Centred samples.now }
    requires n_bound { n < 64 }
    ensures value { result ≡ centred_sum samples.now n }
    ensures result_bound { nat_abs result ≤ 2 ^ 46 }
{
    let mut quadrant = [0i16; 16];
    fold(samples, n % 8, n / 8, &mut quadrant);
    scaled(&quadrant, n)
}

pub fn scaled_sums(samples: &[i16; 64]) -> [i64; 64]
    requires { Centred samples.now }
    ensures value { result ≡ tab 64 (centred_sum samples.now) }
    ensures by_index { (n : ℕ) → nat_abs (get_or result n (pos 0)) ≤ 2 ^ 46 }
{
    array::from_fn(|n| scaled_sum(samples, n))
}
