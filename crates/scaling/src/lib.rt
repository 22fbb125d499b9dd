// Scaling of the ISLOW inverse transforms (idct.rs; document 01, leaf 1).

#![tactic(auto)]

ghost use Rattle.std.specs.Prelude.{◌≡◌, ◌≤◌, pos};
ghost use Rattle.std.specs.Int.{w32};
ghost use Rattle.integers.specs.Wrap.{top_bit};
ghost use Rattle.refusals.specs.Numbers.{told};
ghost use Rattle.scaling.specs.Scaling.{descaled, descale_answer};

use refusals::Refusal;
use wrapping::Wrapping;

// libjpeg's DESCALE at a known shift: half of 2^shift is added, then the sum is shifted right (rounds half up).
pub fn descale_by<T: Wrapping>(value: T, shift: u32) -> T
    requires { (1 ≤ shift) × (shift ≤ top_bit T.width) }
    ensures { T.value result ≡ descaled T.width (T.value value) shift }
{
    value.add(T::from_i32(1).shl(shift - 1)).shr(shift)
}

// `descale_by` at any shift; refused for a shift outside 1..31.
#[tactic(auto, unfolding(refusals::specs::Refusals::status, refusals::specs::Refusals::written))]
pub fn descale(value: i32, shift: i32) -> Result<i32, Refusal>
    ensures { told (pos 0) result ≡ descale_answer value shift }
{
    Refusal::Shift.unless(1 <= shift && shift <= 31)?;
    Ok(descale_by(value, shift as u32))
}

// The sample, before the level shift, of a block whose AC coefficients are zero.
pub fn islow_dc(dc: i32) -> i32
    ensures { result ≡ descaled w32 dc 3 }
{
    descale_by(dc, 3)
}
