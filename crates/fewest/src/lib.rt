// Fewest coefficients within an error (document 02, card 12): percents 1, 2, 3 and on of a base table are tried, each by coding and
// decoding the plane, and of those whose error is within the limit the one with the fewest nonzero coefficients is found.
//
// The plane is gone through once, block by block, and none is kept. The 64 sums S of a block, which no table has a part in, are worked out
// once; under each table they are quantized and decoded (`block_trial`), and what comes of it is added to the percent's error and count
// (`totals`). Of the 200 errors and counts the best percent is found at the end (`choice`). A plane has at most 2^24 samples, whose squared
// errors are at most 255² each, and at most 2^24 coefficients, so no sum overflows 64 bits.

#![tactic(auto)]

mod block_trial;
mod choice;
mod totals;

ghost use Rattle.std.specs.Prelude.{◌≡◌, ◌≤◌, min};
ghost use Rattle.refusals.specs.Refusals.{status};
ghost use Rattle.refusals.specs.Numbers.{status_of};
ghost use Rattle.fewest.specs.Fewest.{search_tests, fewest_answer};
ghost use Rattle.fewest.specs.Told.{told};

use crate::choice::best_percent;
use crate::totals::{add_plane, percent_tables};
use plane::Plane;
use refusals::Refusal;

// What the search found: the percent, where one that was tried is good; how far off it is at most; and the number of trials.
#[derive(Clone, Copy, Debug, PartialEq, Eq)]
pub struct Fewest {
    pub found: Option<u32>,
    pub off: u64,
    pub trials: u32,
}

// What a trial makes of one block: its squared error, and how many of its coefficients are not zero.
#[derive(Clone, Copy)]
struct Trial {
    error: u32,
    count: u32,
}

// What it makes of the blocks of a plane so far.
#[derive(Clone, Copy)]
struct Tried {
    error: u64,
    count: u64,
}

// At most 200 percents are tried.
fn trials_of(given: u32) -> usize
    ensures value { result ≡ min given 200 }
    ensures upper_bound { result ≤ 200 }
{
    given.min(200) as usize
}

// The tests of the search, without searching.
#[tactic(auto, unfolding(refusals::specs::Refusals::status, crate::specs::Fewest::search_tests))]
pub fn search_status(
    samples: &[u8],
    width: usize,
    height: usize,
    base: &[u8],
) -> Result<(), Refusal>
    ensures { status_of result ≡ status (search_tests samples.now width height base.now) }
{
    Plane::new(samples, width, height)?;
    Refusal::Table.unless(base.len() == 64)
}

#[tactic(auto, unfolding(refusals::specs::Refusals::status, refusals::specs::Refusals::written, crate::specs::Fewest::search_tests, crate::specs::Fewest::fewest_answer))]
pub fn fewest_coefficients(
    samples: &[u8],
    width: usize,
    height: usize,
    base: &[u8],
    limit: u64,
    trials: u32,
) -> Result<Fewest, Refusal>
    ensures { told result ≡ fewest_answer samples.now width height base.now limit trials }
{
    search_status(samples, width, height, base)?;
    let plane = Plane {
        samples,
        width,
        height,
    };
    let n = trials_of(trials);
    let tables = percent_tables(base);
    let mut tried = [Tried { error: 0, count: 0 }; 200];
    let last = add_plane(plane, &tables, n, &mut tried);
    match best_percent(limit, &tried, n) {
        Some(p) => Ok(Fewest {
            found: Some(p as u32),
            off: tried[p - 1].count - last,
            trials: n as u32,
        }),
        None => Ok(Fewest {
            found: None,
            off: 0,
            trials: n as u32,
        }),
    }
}
