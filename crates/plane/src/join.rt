// Two strips become one (document 02, card 13): the coefficients of two planes of one height, joined row of blocks by row of blocks without
// decoding. Decoded, they show the left picture beside the right one (`accepted-shows` of proofs/Joining.antt).
//
// For each row of blocks a part of the left strip and a part of the right one, each starting at that row, is handed on to `copy_row`,
// which is lent the row's own part of the output.
ghost use Rattle.std.specs.Prelude.{◌≡◌, ◌++◌, ◌+◌, ◌*◌, ◌%◌, ◌≤◌, pos, length};
ghost use Rattle.lists.specs.Grid.{beside};
ghost use Rattle.refusals.specs.Refusals.{status, written};
ghost use Rattle.refusals.specs.Numbers.{status_of};
ghost use Rattle.quantize.specs.Quantize.{divisor_of};
ghost use Rattle.plane.specs.Plane.{blocks};
ghost use Rattle.plane.specs.Join.{joined, same_divisors, strip_tests, fitting_tests, join_tests, Joinable};

use crate::{Stored, blocks_of, is_measured};
use quantize::divisor;
use refusals::Refusal;

fn divisor_u8(quantizer: u8) -> u32
    ensures { result ≡ divisor_of quantizer }
{
    divisor(u16::from(quantizer))
}

// No branch for each place, so that the compiler tests many at once.
fn same_divisors(quant: &[u8], other: &[u8]) -> bool
    requires { (length quant.now ≡ 64) × (length other.now ≡ 64) }
    ensures { result ≡ same_divisors quant.now other.now }
{
    let mut same = true;
    for n in 0..64 {
        same = (divisor_u8(quant[n]) == divisor_u8(other[n])) & same;
    }
    same
}

// A row of blocks, one after the other. Each is read whole, into 64 places of its own, before a place of
// the output is written: the compiler makes eight loads and eight stores of it. A copy of the whole row
// at once would be slow for strips of a block's width.
fn copy_blocks(row: &[i16], out: &mut [i16])
    requires row_len { length row.now % 64 ≡ 0 }
    requires out_len { length out.old ≡ length row.now }
    ensures { out.new ≡ row.now }
{
    for k in 0..row.len() / 64 {
        let at = 64 * k;
        let end = at + 64;
        let mut block = [0i16; 64];
        block.copy_from_slice(&row[at..end]);
        out[at..end].copy_from_slice(&block);
    }
}

// A row of blocks of the left strip, and then one of the right.
fn copy_row(left: &[i16], right: &[i16], out: &mut [i16])
    requires left_len { (length left.now % 64 ≡ 0) × (length right.now % 64 ≡ 0) }
    requires out_len { length out.old ≡ length left.now + length right.now }
    ensures { out.new ≡ left.now ++ right.now }
{
    let seam = left.len();
    copy_blocks(left, &mut out[..seam]);
    copy_blocks(right, &mut out[seam..]);
}

// Rows of p places of the left beside rows of q places of the right.
fn join_rows(left: &[i16], right: &[i16], p: usize, q: usize, rows: usize, out: &mut [i16])
    requires { Joinable p q rows left.now right.now out.old }
    ensures { out.new ≡ beside (pos 0) p q rows left.now right.now }
{
    let both = p + q;
    for y in 0..rows {
        let a = p * y;
        let b = a + p;
        let c = q * y;
        let d = c + q;
        let at = both * y;
        let end = at + both;
        copy_row(&left[a..b], &right[c..d], &mut out[at..end]);
    }
}

// How many coefficients a plane has.
fn coefficients_of(width: usize, height: usize) -> usize
    requires { (width ≤ 4096) × (height ≤ 4096) }
    ensures { result ≡ 64 * (blocks width * blocks height) }
{
    64 * (blocks_of(width) * blocks_of(height))
}

// The tests of each strip.
#[tactic(auto, unfolding(refusals::specs::Refusals::status, crate::specs::Plane::measured, crate::specs::Join::strip_tests))]
fn strip_status(left: Stored, right: Stored) -> Result<(), Refusal>
    ensures { status_of result ≡ status (strip_tests left.entry.coefficients.now left.entry.width left.entry.height left.entry.quant.now right.entry.coefficients.now right.entry.width right.entry.height right.entry.quant.now) }
{
    Refusal::Measure.unless(is_measured(left.width))?;
    Refusal::Measure.unless(is_measured(left.height))?;
    Refusal::Measure.unless(is_measured(right.width))?;
    Refusal::Measure.unless(is_measured(right.height))?;
    Refusal::Block.unless(left.coefficients.len() == coefficients_of(left.width, left.height))?;
    Refusal::Block.unless(right.coefficients.len() == coefficients_of(right.width, right.height))?;
    Refusal::Table.unless(left.quant.len() == 64)?;
    Refusal::Table.unless(right.quant.len() == 64)
}

// The tests of both together.
#[tactic(auto, unfolding(refusals::specs::Refusals::status, crate::specs::Join::fitting_tests))]
fn fitting_status(left: Stored, right: Stored, out: &[i16]) -> Result<(), Refusal>
    requires left_quant_len { (length left.quant.now ≡ 64) × (length right.quant.now ≡ 64) }
    requires left_width_bound { (left.width ≤ 4096) × (left.height ≤ 4096) × (right.width ≤ 4096) }
    ensures { status_of result ≡ status (fitting_tests left.entry.width left.entry.height left.entry.quant.now right.entry.width right.entry.height right.entry.quant.now out.now) }
{
    Refusal::Divisors.unless(same_divisors(left.quant, right.quant))?;
    Refusal::Heights.unless(left.height == right.height)?;
    Refusal::Seam.unless(left.width % 8 == 0)?;
    let width = left.width + right.width;
    Refusal::Measure.unless(width <= 4096)?;
    Refusal::Output.unless(out.len() == coefficients_of(width, left.height))
}

// The coefficients of the left plane and of the right one as one plane, whose blocks are the left's and then the right's in each row of
// blocks.
#[tactic(auto, unfolding(refusals::specs::Refusals::status, refusals::specs::Refusals::written, crate::specs::Plane::measured, crate::specs::Join::strip_tests, crate::specs::Join::fitting_tests, crate::specs::Join::joined))]
pub fn join_planes(
    left: &[i16],
    left_width: usize,
    left_height: usize,
    left_quant: &[u8],
    right: &[i16],
    right_width: usize,
    right_height: usize,
    right_quant: &[u8],
    out: &mut [i16],
) -> Result<(), Refusal>
    ensures value { status_of result ≡ status (join_tests left.now left_width left_height left_quant.now right.now right_width right_height right_quant.now out.old) }
    ensures out_after { out.new ≡ written (status_of result) (joined left_width right_width left_height left.now right.now) out.old }
{
    let first = Stored {
        coefficients: left,
        width: left_width,
        height: left_height,
        quant: left_quant,
    };
    let second = Stored {
        coefficients: right,
        width: right_width,
        height: right_height,
        quant: right_quant,
    };
    strip_status(first, second)?;
    fitting_status(first, second, out)?;
    let p = 64 * blocks_of(left_width);
    let q = 64 * blocks_of(right_width);
    join_rows(left, right, p, q, blocks_of(left_height), out);
    Ok(())
}
