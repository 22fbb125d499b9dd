// The plane inverse (document 02, card 2), at any of its three scales. Its counts are those of the
// blocks, added up (card 4): they count whole blocks, before anything is cropped.
//
// A block is decoded to a buffer and copied to the picture row by row, as far as it lies inside: no
// more than one block is held.
ghost use Rattle.std.specs.Prelude.{◌≡◌, ◌+◌, ◌*◌, ◌≤◌, ◌<◌, length, drop};
ghost use Rattle.std.proofs.Math.Seq.{paste};
ghost use Rattle.refusals.specs.Refusals.{status, written};
ghost use Rattle.refusals.specs.Numbers.{status_of, told};
ghost use Rattle.clamping.specs.Counts.{counted, tally_one};
ghost use Rattle.plane.specs.Scale.{scale_of, full, half, cropped, clamped16, fitted, block_samples, plane_samples, plane_inverse_tests};
ghost use Rattle.plane.specs.Counts.{block_numbers, plane_numbers, plane_raised, plane_lowered};
ghost use Rattle.plane.specs.Placing.{StoredOf, Begins, Placed};
ghost use Rattle.block.specs.Clamped.{counts_of, no_counts, clamped_answer};

use crate::runs::copy_run;
use crate::{Stored, blocks_of, is_measured};
use block::Clamped;
use idct_8x8::write_i32;
use idct_reduced::{write_2x2, write_4x4};
use refusals::Refusal;
use stored_blocks::product;

// How large a picture is: as its plane, or half or a quarter as wide and as high.
#[derive(Clone, Copy, Debug, PartialEq, Eq)]
pub enum Scale {
    Full,
    Half,
    Quarter,
}

impl Scale {
    // What width and height are divided by.
    fn by(self) -> usize
        ensures value { result ≡ (scale_of self).by }
        ensures range { (1 ≤ result) × (result ≤ 4) }
    {
        match self {
            Scale::Full => 1,
            Scale::Half => 2,
            Scale::Quarter => 4,
        }
    }

    // How many samples a block's side has.
    #[tactic(auto, unfolding(passes::specs::Passes::eight, passes::specs::Passes::four, passes::specs::Passes::two))]
    fn side(self) -> usize
        ensures value { result ≡ (scale_of self).size.side }
        ensures range { (1 ≤ result) × (result ≤ 8) }
    {
        match self {
            Scale::Full => 8,
            Scale::Half => 4,
            Scale::Quarter => 2,
        }
    }

    // Width or height of the picture.
    fn cropped(self, n: usize) -> usize
        requires { n ≤ 4096 }
        ensures value { result ≡ cropped (scale_of self) n }
        ensures upper_bound { result ≤ 4096 }
    {
        let by = self.by();
        (n + (by - 1)) / by
    }
}

// `copy_run` of a row of a block: of a whole one, which most are, the number is a literal.
fn put_row(block: &[u8], from: usize, n: usize, out: &mut [u8], at: usize)
    requires n_in_bounds { from + n ≤ length block.now }
    requires n_in_bounds_2 { at + n ≤ length out.old }
    ensures { out.new ≡ paste out.old at (drop from block.now) n }
{
    match n {
        8 => copy_run(block, from, 8, out, at),
        4 => copy_run(block, from, 4, out, at),
        2 => copy_run(block, from, 2, out, at),
        _ => copy_run(block, from, n, out, at),
    }
}

// Writes the block in column x and row y of blocks, as far as it lies in the picture; all other places keep their content.
fn put_block(
    block: &[u8],
    side: usize,
    x: usize,
    y: usize,
    width: usize,
    height: usize,
    out: &mut [u8],
)
    requires begins { Begins side width height x y out.old }
    requires block_len { length block.now ≡ side * side }
    ensures { Placed side width height x y block.now out.old out.new }
{
    let left = side * x;
    let top = side * y;
    let columns = side.min(width - left);
    let rows = side.min(height - top);
    for j in 0..rows {
        put_row(block, side * j, columns, out, width * (top + j) + left);
    }
}

// The products of a block at full size.
pub fn products_i32(coefficients: &[i16], quant: &[u8]) -> [i32; 64]
    requires { (length coefficients.now ≡ 64) × (length quant.now ≡ 64) }
    ensures { result ≡ fitted full quant.now coefficients.now }
{
    let mut products = [0i32; 64];
    for n in 0..64 {
        products[n] = product(coefficients[n], quant[n]);
    }
    products
}

#[tactic(auto, unfolding(crate::specs::Scale::clamped16))]
fn clamped(product: i32) -> i16
    ensures { result ≡ clamped16 product }
{
    product.clamp(-32768, 32767) as i16
}

// The products of a block at half size, which are those at quarter size. It is a loop of its own: a
// clamp of what `products_i32` made would go through memory twice.
fn products_i16(coefficients: &[i16], quant: &[u8]) -> [i16; 64]
    requires { (length coefficients.now ≡ 64) × (length quant.now ≡ 64) }
    ensures { result ≡ fitted half quant.now coefficients.now }
{
    let mut products = [0i16; 64];
    for n in 0..64 {
        products[n] = clamped(product(coefficients[n], quant[n]));
    }
    products
}

// Decodes a block; the answer has both counts in one number (`tally_one`).
fn decode_block(scale: Scale, coefficients: &[i16], quant: &[u8], block: &mut [u8]) -> u32
    requires coefficients_len { (length coefficients.now ≡ 64) × (length quant.now ≡ 64) }
    requires block_len { length block.old ≡ (scale_of scale).size.side * (scale_of scale).size.side }
    ensures value { result ≡ counted tally_one (block_numbers (scale_of scale) quant.now coefficients.now) }
    ensures block_after { block.new ≡ block_samples (scale_of scale) quant.now coefficients.now }
{
    match scale {
        Scale::Full => write_i32(&products_i32(coefficients, quant), block),
        Scale::Half => write_4x4(&products_i16(coefficients, quant), block),
        Scale::Quarter => write_2x2(&products_i16(coefficients, quant), block),
    }
}

// The step for one block.
fn put_decoded(
    scale: Scale,
    coefficients: &[i16],
    quant: &[u8],
    x: usize,
    y: usize,
    width: usize,
    height: usize,
    out: &mut [u8],
) -> Clamped
    requires coefficients_len { (length coefficients.now ≡ 64) × (length quant.now ≡ 64) }
    requires begins { Begins (scale_of scale).size.side width height x y out.old }
    ensures value { result ≡ counts_of (block_numbers (scale_of scale) quant.now coefficients.now) }
    ensures placed { Placed (scale_of scale).size.side width height x y (block_samples (scale_of scale) quant.now coefficients.now) out.old out.new }
{
    let side = scale.side();
    let count = side * side;
    let mut buffer = [0u8; 64];
    let tally = decode_block(scale, coefficients, quant, &mut buffer[..count]);
    put_block(&buffer[..count], side, x, y, width, height, out);
    block_access::clamped(tally)
}

fn decode_plane(scale: Scale, stored: Stored, out: &mut [u8]) -> Clamped
    requires { StoredOf (scale_of scale) stored.coefficients.now stored.width stored.height stored.quant.now out.old }
    ensures value { result ≡ counts_of (plane_numbers (scale_of scale) stored.entry.coefficients.now stored.entry.width stored.entry.height stored.entry.quant.now) }
    ensures out_after { out.new ≡ plane_samples (scale_of scale) stored.entry.coefficients.now stored.entry.width stored.entry.height stored.entry.quant.now }
{
    let across = blocks_of(stored.width);
    let down = blocks_of(stored.height);
    let wide = scale.cropped(stored.width);
    let high = scale.cropped(stored.height);
    let mut raised = 0;
    let mut lowered = 0;
    for y in 0..down {
        for x in 0..across {
            let at = 64 * (across * y + x);
            let end = at + 64;
            let block = &stored.coefficients[at..end];
            let counts = put_decoded(scale, block, stored.quant, x, y, wide, high, out);
            raised += counts.raised;
            lowered += counts.lowered;
        }
    }
    Clamped { raised, lowered }
}

// The tests of the inverse, without writing.
#[tactic(auto, unfolding(refusals::specs::Refusals::status, crate::specs::Plane::measured, crate::specs::Scale::plane_inverse_tests))]
pub fn inverse_status(
    scale: Scale,
    coefficients: &[i16],
    width: usize,
    height: usize,
    quant: &[u8],
    out: &[u8],
) -> Result<(), Refusal>
    ensures { status_of result ≡ status (plane_inverse_tests (scale_of scale) coefficients.now width height quant.now out.now) }
{
    Refusal::Measure.unless(is_measured(width))?;
    Refusal::Measure.unless(is_measured(height))?;
    Refusal::Block.unless(coefficients.len() == 64 * (blocks_of(width) * blocks_of(height)))?;
    Refusal::Table.unless(quant.len() == 64)?;
    Refusal::Output.unless(out.len() == scale.cropped(width) * scale.cropped(height))
}

#[tactic(auto, using(crate::proofs::Decoding::stored), unfolding(refusals::specs::Refusals::written, block::specs::Clamped::counts_of, crate::specs::Counts::plane_raised, crate::specs::Counts::plane_lowered))]
pub fn inverse(
    scale: Scale,
    coefficients: &[i16],
    width: usize,
    height: usize,
    quant: &[u8],
    out: &mut [u8],
) -> Result<Clamped, Refusal>
    ensures value { told no_counts result ≡ clamped_answer (plane_inverse_tests (scale_of scale) coefficients.now width height quant.now out.old) (plane_raised (scale_of scale) coefficients.now width height quant.now) (plane_lowered (scale_of scale) coefficients.now width height quant.now) }
    ensures out_after { out.new ≡ written (status_of result) (plane_samples (scale_of scale) coefficients.now width height quant.now) out.old }
{
    inverse_status(scale, coefficients, width, height, quant, out)?;
    let stored = Stored {
        coefficients,
        width,
        height,
        quant,
    };
    Ok(decode_plane(scale, stored, out))
}
