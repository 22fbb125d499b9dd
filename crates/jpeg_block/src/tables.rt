// Tables by percent (crate percent).
ghost use Rattle.std.specs.Prelude.{◌≡◌};
ghost use Rattle.refusals.specs.Refusals.{status, written};
ghost use Rattle.percent.specs.Percent.{percent_tests, percent_table};

use crate::place::status;
use percent::percent_table;

#[unsafe(no_mangle)]
pub extern "C" fn jpeg_block_percent_table(base: &[u8], percent: u32, out: &mut [u8]) -> u32
    ensures value { result ≡ status (percent_tests base.now percent out.old) }
    ensures out_after { out.new ≡ written result (percent_table base.now percent) out.old }
{
    status(percent_table(base, percent, out))
}
