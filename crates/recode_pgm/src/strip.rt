// A strip of at most eight rows, coded with divisor 1 and decoded.
ghost use Rattle.std.specs.Prelude.{◌≡◌, ◌*◌, ◌≤◌, length};
ghost use Rattle.plane.specs.Plane.{blocks};
ghost use Rattle.plane.specs.Ready.{PlaneOf};
ghost use Rattle.recode_pgm.specs.Recode.{recoded_by_one};

use plane::{fdct_quantize_plane, islow_plane};

// 64 for each of the 512 blocks of the widest strip.
const COEFFICIENTS: usize = 32768;

// Through the strip's coefficients.
fn recode_through(
    samples: &[u8],
    width: usize,
    rows: usize,
    coefficients: &mut [i16],
    out: &mut [u8],
)
    requires plane_of { PlaneOf samples.now width rows }
    requires coefficients_len { (length coefficients.old ≡ 64 * (blocks width * blocks rows)) × (length out.old ≡ width * rows) }
    ensures { out.new ≡ recoded_by_one samples.now width rows }
{
    let ones = [1u8; 64];
    let _ = fdct_quantize_plane(samples, width, rows, &ones, coefficients);
    let _ = islow_plane(coefficients, width, rows, &ones, out);
}

pub fn recode_strip(samples: &[u8], width: usize, rows: usize, out: &mut [u8])
    requires plane_of { PlaneOf samples.now width rows }
    requires rows_bound { (rows ≤ 8) × (length out.old ≡ width * rows) }
    ensures { out.new ≡ recoded_by_one samples.now width rows }
{
    let mut coefficients = [0i16; COEFFICIENTS];
    let n = 64 * ((width + 7) / 8);
    recode_through(samples, width, rows, &mut coefficients[..n], out);
}
