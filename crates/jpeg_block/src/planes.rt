// Whole planes (crate plane), the inverses with a place for the counts.
ghost use Rattle.std.specs.Prelude.{◌≡◌, ◌++◌, length};
ghost use Rattle.refusals.specs.Refusals.{status, written};
ghost use Rattle.refusals.specs.Numbers.{status_of};
ghost use Rattle.plane.specs.Plane.{forward_tests, plane_coefficients};
ghost use Rattle.plane.specs.Scale.{full, half, quarter, scale_of, plane_inverse_tests, plane_samples};
ghost use Rattle.plane.specs.Counts.{plane_raised, plane_lowered};
ghost use Rattle.jpeg_block.specs.Counts.{counts_tests, counts_left};

use crate::counts::{counts_room, put_counts};
use crate::place::status;
use plane::decode::{Scale, inverse_status};
use plane::{fdct_quantize_plane, islow_plane, islow_plane_2x2, islow_plane_4x4};
use refusals::Refusal;

#[unsafe(no_mangle)]
pub extern "C" fn jpeg_block_fdct_quantize_plane(
    samples: &[u8],
    width: usize,
    height: usize,
    quant: &[u8],
    out: &mut [i16],
) -> u32
    ensures value { result ≡ status (forward_tests samples.now width height quant.now out.old) }
    ensures out_after { out.new ≡ written result (plane_coefficients samples.now width height quant.now) out.old }
{
    status(fdct_quantize_plane(samples, width, height, quant, out))
}

// The entry's tests, and that of the place for the counts.
#[tactic(auto, unfolding(refusals::specs::Refusals::status, refusals::specs::Refusals::written))]
fn plane_room(
    scale: Scale,
    coefficients: &[i16],
    width: usize,
    height: usize,
    quant: &[u8],
    output: &[u8],
    counts: usize,
) -> Result<(), Refusal>
    ensures { status_of result ≡ status (plane_inverse_tests (scale_of scale) coefficients.now width height quant.now output.now ++ counts_tests counts) }
{
    match inverse_status(scale, coefficients, width, height, quant, output) {
        Ok(()) => counts_room(counts),
        Err(refusal) => Err(refusal),
    }
}

#[tactic(auto, unfolding(refusals::specs::Refusals::status, refusals::specs::Refusals::written, crate::specs::Counts::counts_tests))]
#[unsafe(no_mangle)]
pub extern "C" fn jpeg_block_islow_plane(
    coefficients: &[i16],
    width: usize,
    height: usize,
    quant: &[u8],
    output: &mut [u8],
    counts: &mut [u32],
) -> u32
    ensures value { result ≡ status (plane_inverse_tests full coefficients.now width height quant.now output.old ++ counts_tests (length counts.old)) }
    ensures output_after { output.new ≡ written result (plane_samples full coefficients.now width height quant.now) output.old }
    ensures counts_after { counts.new ≡ written result (counts_left (plane_raised full coefficients.now width height quant.now) (plane_lowered full coefficients.now width height quant.now) counts.old) counts.old }
{
    if let Err(refusal) = plane_room(
        Scale::Full,
        coefficients,
        width,
        height,
        quant,
        output,
        counts.len(),
    ) {
        return refusal.number();
    }
    match islow_plane(coefficients, width, height, quant, output) {
        Ok(clamped) => {
            put_counts(clamped, counts);
            0
        }
        Err(refusal) => refusal.number(),
    }
}

#[tactic(auto, unfolding(refusals::specs::Refusals::status, refusals::specs::Refusals::written, crate::specs::Counts::counts_tests))]
#[unsafe(no_mangle)]
pub extern "C" fn jpeg_block_islow_plane_4x4(
    coefficients: &[i16],
    width: usize,
    height: usize,
    quant: &[u8],
    output: &mut [u8],
    counts: &mut [u32],
) -> u32
    ensures value { result ≡ status (plane_inverse_tests half coefficients.now width height quant.now output.old ++ counts_tests (length counts.old)) }
    ensures output_after { output.new ≡ written result (plane_samples half coefficients.now width height quant.now) output.old }
    ensures counts_after { counts.new ≡ written result (counts_left (plane_raised half coefficients.now width height quant.now) (plane_lowered half coefficients.now width height quant.now) counts.old) counts.old }
{
    if let Err(refusal) = plane_room(
        Scale::Half,
        coefficients,
        width,
        height,
        quant,
        output,
        counts.len(),
    ) {
        return refusal.number();
    }
    match islow_plane_4x4(coefficients, width, height, quant, output) {
        Ok(clamped) => {
            put_counts(clamped, counts);
            0
        }
        Err(refusal) => refusal.number(),
    }
}

#[tactic(auto, unfolding(refusals::specs::Refusals::status, refusals::specs::Refusals::written, crate::specs::Counts::counts_tests))]
#[unsafe(no_mangle)]
pub extern "C" fn jpeg_block_islow_plane_2x2(
    coefficients: &[i16],
    width: usize,
    height: usize,
    quant: &[u8],
    output: &mut [u8],
    counts: &mut [u32],
) -> u32
    ensures value { result ≡ status (plane_inverse_tests quarter coefficients.now width height quant.now output.old ++ counts_tests (length counts.old)) }
    ensures output_after { output.new ≡ written result (plane_samples quarter coefficients.now width height quant.now) output.old }
    ensures counts_after { counts.new ≡ written result (counts_left (plane_raised quarter coefficients.now width height quant.now) (plane_lowered quarter coefficients.now width height quant.now) counts.old) counts.old }
{
    if let Err(refusal) = plane_room(
        Scale::Quarter,
        coefficients,
        width,
        height,
        quant,
        output,
        counts.len(),
    ) {
        return refusal.number();
    }
    match islow_plane_2x2(coefficients, width, height, quant, output) {
        Ok(clamped) => {
            put_counts(clamped, counts);
            0
        }
        Err(refusal) => refusal.number(),
    }
}
