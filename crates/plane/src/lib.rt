// Whole planes (document 02, cards 1 and 2): the canonical coefficients of every block, and the samples back from them.
//
// A plane is at most 4096 × 4096, so every index is below 2^25 and nothing overflows (`samples-most` of proofs/Coding.antt). Forward each
// block is copied out of the plane, its edge repeated, and coded into its own 64 places of the output; back each is decoded to a buffer
// and copied to the picture (`decode`): no more than one block is held.

#![tactic(auto)]

pub mod decode;
pub mod join;
mod runs;

ghost use Rattle.std.specs.Prelude.{◌≡◌, ◌+◌, ◌*◌, ◌/◌, ◌≤◌, ◌<◌, min, length, IfOk};
ghost use Rattle.std.proofs.Math.Seq.{paste};
ghost use Rattle.refusals.specs.Refusals.{status, written};
ghost use Rattle.refusals.specs.Numbers.{status_of, told};
ghost use Rattle.forward.specs.Canonical.{coefficients};
ghost use Rattle.plane.specs.Plane.{blocks, sample_at, block_at, block_of, measured, plane_coefficients, plane_tests, forward_tests};
ghost use Rattle.plane.specs.Ready.{PlaneOf};
ghost use Rattle.plane.specs.Scale.{full, half, quarter, plane_samples, plane_inverse_tests};
ghost use Rattle.plane.specs.Counts.{plane_raised, plane_lowered};
ghost use Rattle.block.specs.Clamped.{no_counts, clamped_answer};

use crate::decode::{Scale, inverse};
use crate::runs::copy_run;
use block::Clamped;
use fdct::{widen, write_block};
use refusals::Refusal;

// A width or height of 1 to 4096.
#[tactic(auto, unfolding(crate::specs::Plane::measured))]
pub fn is_measured(n: usize) -> bool
    ensures { result ≡ measured n }
{
    matches!(n, 1..=4096)
}

// How many blocks n columns or rows take.
#[tactic(auto, unfolding(crate::specs::Plane::blocks))]
pub fn blocks_of(n: usize) -> usize
    requires { n ≤ 4096 }
    ensures value { result ≡ blocks n }
    ensures upper_bound { result ≤ 512 }
{
    (n + 7) / 8
}

pub fn lesser(a: usize, b: usize) -> usize
    ensures { result ≡ min a b }
{
    a.min(b)
}

// A plane that no call refuses.
#[derive(Clone, Copy)]
pub struct Plane<'a> {
    pub samples: &'a [u8],
    pub width: usize,
    pub height: usize,
    ghost sized: { PlaneOf samples.now width height },
}

impl<'a> Plane<'a> {
    // The plane, or the refusal of its width, its height or its samples.
    #[tactic(auto, unfolding(refusals::specs::Refusals::status, crate::specs::Plane::measured))]
    pub fn new(samples: &'a [u8], width: usize, height: usize) -> Result<Plane<'a>, Refusal>
        ensures value { status_of result ≡ status (plane_tests samples.now width height) }
        ensures made { IfOk result (λ p. (p.samples.now ≡ samples.now) × ((p.width ≡ width) × (p.height ≡ height))) }
    {
        Refusal::Measure.unless(is_measured(width))?;
        Refusal::Measure.unless(is_measured(height))?;
        Refusal::Samples.unless(samples.len() == width * height)?;
        Ok(Plane {
            samples,
            width,
            height,
        })
    }

    // How many blocks it takes.
    pub fn blocks(self) -> usize
        ensures value { result ≡ blocks self.entry.width * blocks self.entry.height }
        ensures upper_bound { result ≤ 512 * 512 }
    {
        blocks_of(self.width) * blocks_of(self.height)
    }

    // Sample (x, y), past the edge that of the last column or row.
    fn sample_at(self, x: usize, y: usize) -> u8
        ensures { result ≡ sample_at self.entry.samples.now self.entry.width self.entry.height x y }
    {
        self.samples[self.width * y.min(self.height - 1) + x.min(self.width - 1)]
    }

    // The block in column x and row y of blocks, all of it inside the plane: eight rows of eight samples.
    fn block_inside(self, x: usize, y: usize) -> [u8; 64]
        requires { (x < self.width / 8) × (y < self.height / 8) }
        ensures { result ≡ block_at self.entry.samples.now self.entry.width self.entry.height x y }
    {
        let at = self.width * (8 * y) + 8 * x;
        let mut block = [0u8; 64];
        for j in 0..8 {
            copy_run(self.samples, at + self.width * j, 8, &mut block, 8 * j);
        }
        block
    }

    // The block in column x and row y of blocks, wherever it lies.
    fn block_at_edge(self, x: usize, y: usize) -> [u8; 64]
        requires { (x < blocks self.width) × (y < blocks self.height) }
        ensures { result ≡ block_at self.entry.samples.now self.entry.width self.entry.height x y }
    {
        let mut block = [0u8; 64];
        for i in 0..64 {
            block[i] = self.sample_at(8 * x + i % 8, 8 * y + i / 8);
        }
        block
    }

    // The block in column x and row y of blocks: most lie inside the plane.
    pub fn block_at(self, x: usize, y: usize) -> [u8; 64]
        requires { (x < blocks self.width) × (y < blocks self.height) }
        ensures { result ≡ block_at self.entry.samples.now self.entry.width self.entry.height x y }
    {
        if x < self.width / 8 && y < self.height / 8 {
            self.block_inside(x, y)
        } else {
            self.block_at_edge(x, y)
        }
    }

    // Codes block k into its own part of the output; all other places keep their content.
    fn code_block(self, quant: &[u16; 64], k: usize, out: &mut [i16])
        requires k_bound { k < blocks self.width * blocks self.height }
        requires k_in_bounds { 64 * k + 64 ≤ length out.old }
        ensures { out.new ≡ paste out.old (64 * k) (coefficients (block_of self.entry.samples.now self.entry.width self.entry.height k) quant.now) 64 }
    {
        let across = blocks_of(self.width);
        let block = self.block_at(k % across, k / across);
        let at = 64 * k;
        let end = at + 64;
        write_block(&block, quant, &mut out[at..end]);
    }

    // Codes every block.
    fn code(self, quant: &[u8], out: &mut [i16])
        requires { (length quant.now ≡ 64) × (length out.old ≡ 64 * (blocks self.width * blocks self.height)) }
        ensures { out.new ≡ plane_coefficients self.entry.samples.now self.entry.width self.entry.height quant.now }
    {
        let wider = widen(quant);
        let n = self.blocks();
        for k in 0..n {
            self.code_block(&wider, k, out);
        }
    }
}

// A block of samples that no call refuses, where no `Plane` is at hand.
pub fn block_at(samples: &[u8], width: usize, height: usize, x: usize, y: usize) -> [u8; 64]
    requires plane_of { PlaneOf samples.now width height }
    requires x_bound { (x < blocks width) × (y < blocks height) }
    ensures { result ≡ block_at samples.now width height x y }
{
    let plane = Plane {
        samples,
        width,
        height,
    };
    plane.block_at(x, y)
}

// Coefficients of a plane, and their table.
#[derive(Clone, Copy)]
struct Stored<'a> {
    coefficients: &'a [i16],
    width: usize,
    height: usize,
    quant: &'a [u8],
}

#[tactic(auto, unfolding(refusals::specs::Refusals::status, refusals::specs::Refusals::written, crate::specs::Plane::forward_tests))]
pub fn fdct_quantize_plane(
    samples: &[u8],
    width: usize,
    height: usize,
    quant: &[u8],
    out: &mut [i16],
) -> Result<(), Refusal>
    ensures value { status_of result ≡ status (forward_tests samples.now width height quant.now out.old) }
    ensures out_after { out.new ≡ written (status_of result) (plane_coefficients samples.now width height quant.now) out.old }
{
    let plane = Plane::new(samples, width, height)?;
    Refusal::Table.unless(quant.len() == 64)?;
    Refusal::Output.unless(out.len() == 64 * plane.blocks())?;
    plane.code(quant, out);
    Ok(())
}

// The plane inverse with 8 samples per block side; like the two below it answers the counts of document 02, card 4.
pub fn islow_plane(
    coefficients: &[i16],
    width: usize,
    height: usize,
    quant: &[u8],
    out: &mut [u8],
) -> Result<Clamped, Refusal>
    ensures value { told no_counts result ≡ clamped_answer (plane_inverse_tests full coefficients.now width height quant.now out.old) (plane_raised full coefficients.now width height quant.now) (plane_lowered full coefficients.now width height quant.now) }
    ensures out_after { out.new ≡ written (status_of result) (plane_samples full coefficients.now width height quant.now) out.old }
{
    inverse(Scale::Full, coefficients, width, height, quant, out)
}

// With 4, at half width and height.
pub fn islow_plane_4x4(
    coefficients: &[i16],
    width: usize,
    height: usize,
    quant: &[u8],
    out: &mut [u8],
) -> Result<Clamped, Refusal>
    ensures value { told no_counts result ≡ clamped_answer (plane_inverse_tests half coefficients.now width height quant.now out.old) (plane_raised half coefficients.now width height quant.now) (plane_lowered half coefficients.now width height quant.now) }
    ensures out_after { out.new ≡ written (status_of result) (plane_samples half coefficients.now width height quant.now) out.old }
{
    inverse(Scale::Half, coefficients, width, height, quant, out)
}

// With 2, at a quarter of them.
pub fn islow_plane_2x2(
    coefficients: &[i16],
    width: usize,
    height: usize,
    quant: &[u8],
    out: &mut [u8],
) -> Result<Clamped, Refusal>
    ensures value { told no_counts result ≡ clamped_answer (plane_inverse_tests quarter coefficients.now width height quant.now out.old) (plane_raised quarter coefficients.now width height quant.now) (plane_lowered quarter coefficients.now width height quant.now) }
    ensures out_after { out.new ≡ written (status_of result) (plane_samples quarter coefficients.now width height quant.now) out.old }
{
    inverse(Scale::Quarter, coefficients, width, height, quant, out)
}
