// Two strips become one (crate plane).
ghost use Rattle.std.specs.Prelude.{◌≡◌};
ghost use Rattle.refusals.specs.Refusals.{status, written};
ghost use Rattle.plane.specs.Join.{joined, join_tests};

use crate::place::status;
use plane::join::join_planes;

#[unsafe(no_mangle)]
pub extern "C" fn jpeg_block_join_planes(
    left: &[i16],
    left_width: usize,
    left_height: usize,
    left_quant: &[u8],
    right: &[i16],
    right_width: usize,
    right_height: usize,
    right_quant: &[u8],
    out: &mut [i16],
) -> u32
    ensures value { result ≡ status (join_tests left.now left_width left_height left_quant.now right.now right_width right_height right_quant.now out.old) }
    ensures out_after { out.new ≡ written result (joined left_width right_width left_height left.now right.now) out.old }
{
    status(join_planes(
        left,
        left_width,
        left_height,
        left_quant,
        right,
        right_width,
        right_height,
        right_quant,
        out,
    ))
}
