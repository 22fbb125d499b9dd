// The counts of an 8-bit inverse (document 02, card 4), given as C takes them: two numbers in a lent place, or none where the place has
// length 0. A refused call writes no place, so all lengths are tested before the entry is called.
ghost use Rattle.std.specs.Prelude.{◌≡◌, ◌∷◌, eqb};
ghost use Rattle.refusals.specs.Numbers.{status_of};
ghost use Rattle.refusals.specs.Refusals.{◌unless◌, status};
ghost use Rattle.jpeg_block.specs.Counts.{counts_tests, counts_left};

use block::Clamped;
use refusals::Refusal;

// The test of the place, by its length.
#[tactic(auto, unfolding(refusals::specs::Refusals::status, crate::specs::Counts::counts_tests))]
pub fn counts_room(counts: usize) -> Result<(), Refusal>
    ensures { status_of result ≡ status (counts_tests counts) }
{
    Refusal::Output.unless(counts == 2 || counts == 0)
}

// The tests of a block with n samples, by the lengths: the entry's own, and then that of the place.
#[tactic(auto, unfolding(refusals::specs::Refusals::status))]
pub fn block_room(input: usize, output: usize, n: usize, counts: usize) -> Result<(), Refusal>
    ensures { status_of result ≡ status (1 unless eqb input 64 ∷ 3 unless eqb output n ∷ counts_tests counts) }
{
    Refusal::Block.unless(input == 64)?;
    Refusal::Output.unless(output == n)?;
    counts_room(counts)
}

pub fn put_counts(clamped: Clamped, counts: &mut [u32])
    ensures { counts.new ≡ counts_left clamped.raised clamped.lowered counts.old }
{
    if counts.len() == 2 {
        counts[0] = clamped.raised;
        counts[1] = clamped.lowered;
    }
}
