// Tables by percent (document 02, card 6): a base table's quantizers, each times a percent.
//
// 255 · 200 + 50 fits 16 bits, where the compiler works on several divisors at once.

#![tactic(auto)]

ghost use Rattle.std.specs.Prelude.{◌≡◌, ◌≤◌};
ghost use Rattle.refusals.specs.Refusals.{status, written};
ghost use Rattle.refusals.specs.Numbers.{status_of};
ghost use Rattle.percent.specs.Percent.{percent_divisor, percent_table, percent_tests};

use refusals::Refusal;
use std::array;

#[tactic(auto, unfolding(crate::specs::Percent::percent_divisor))]
fn percent_divisor(base: u8, percent: u16) -> u8
    requires { percent ≤ 200 }
    ensures { result ≡ percent_divisor base percent }
{
    ((u16::from(base) * percent + 50) / 100).clamp(1, 255) as u8
}

fn divisors(base: &[u8; 64], percent: u16) -> [u8; 64]
    requires { percent ≤ 200 }
    ensures { result ≡ percent_table base.now percent }
{
    array::from_fn(|n| percent_divisor(base[n], percent))
}

// A larger percent makes no divisor smaller (`table-grows`) and no zero coefficient of a block or a plane nonzero (`block-zeros`,
// `plane-zeros`).
#[tactic(auto, unfolding(refusals::specs::Refusals::status, refusals::specs::Refusals::written))]
pub fn percent_table(base: &[u8], percent: u32, out: &mut [u8]) -> Result<(), Refusal>
    ensures value { status_of result ≡ status (percent_tests base.now percent out.old) }
    ensures out_after { out.new ≡ written (status_of result) (percent_table base.now percent) out.old }
{
    let base = base.try_into().map_err(|_| Refusal::Table)?;
    Refusal::Output.unless(out.len() == 64)?;
    Refusal::Percent.unless(1 <= percent && percent <= 200)?;
    out.copy_from_slice(&divisors(base, percent as u16));
    Ok(())
}
