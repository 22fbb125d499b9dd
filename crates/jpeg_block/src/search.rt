// Fewest coefficients within an error (crate fewest). What was found is three numbers in a lent place: the percent, or 0 where none tried
// is good; how far off it is at most; the number of trials. All lengths are tested before anything is searched.
ghost use Rattle.std.specs.Prelude.{◌≡◌, ◌++◌, ◌∷◌, [], eqb, length, Ok};
ghost use Rattle.refusals.specs.Refusals.{◌unless◌, status, written};
ghost use Rattle.refusals.specs.Numbers.{status_of};
ghost use Rattle.fewest.specs.Fewest.{percent_of, search_tests, fewest_answer};
ghost use Rattle.fewest.specs.Told.{told, found_in};
ghost use Rattle.jpeg_block.specs.Search.{fewest_numbers, fewest_place_tests};

use fewest::{Fewest, fewest_coefficients, search_status};
use refusals::Refusal;

// 0 where none tried is good.
#[tactic(auto, unfolding(fewest::specs::Fewest::percent_of))]
fn found_percent(found: Option<u32>) -> u32
    ensures { result ≡ percent_of (found_in found) }
{
    match found {
        Some(percent) => percent,
        None => 0,
    }
}

fn put_fewest(fewest: Fewest, answer: &mut [u64])
    requires { length answer.old ≡ 3 }
    ensures { answer.new ≡ fewest_numbers (told (Ok fewest)) }
{
    let percent = found_percent(fewest.found);
    answer.copy_from_slice(&[u64::from(percent), fewest.off, u64::from(fewest.trials)]);
}

// The tests of the search, and that of the place.
#[tactic(auto, unfolding(refusals::specs::Refusals::status, refusals::specs::Refusals::written))]
fn search_room(
    samples: &[u8],
    width: usize,
    height: usize,
    base: &[u8],
    answer: usize,
) -> Result<(), Refusal>
    ensures { status_of result ≡ status (search_tests samples.now width height base.now ++ 3 unless eqb answer 3 ∷ []) }
{
    match search_status(samples, width, height, base) {
        Ok(()) => Refusal::Output.unless(answer == 3),
        Err(refusal) => Err(refusal),
    }
}

// Refusals 8, 9, 2, then 3 for the place of the answer.
#[tactic(auto, unfolding(refusals::specs::Refusals::status, refusals::specs::Refusals::written))]
#[unsafe(no_mangle)]
pub extern "C" fn jpeg_block_fewest_coefficients(
    samples: &[u8],
    width: usize,
    height: usize,
    base: &[u8],
    limit: u64,
    trials: u32,
    answer: &mut [u64],
) -> u32
    ensures value { result ≡ status (fewest_place_tests samples.now width height base.now answer.old) }
    ensures answer_after { answer.new ≡ written result (fewest_numbers (fewest_answer samples.now width height base.now limit trials)) answer.old }
{
    if let Err(refusal) = search_room(samples, width, height, base, answer.len()) {
        return refusal.number();
    }
    match fewest_coefficients(samples, width, height, base, limit, trials) {
        Ok(fewest) => {
            put_fewest(fewest, answer);
            0
        }
        Err(refusal) => refusal.number(),
    }
}
