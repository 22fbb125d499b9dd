// What C gets of a result: the status is returned, and a value goes to a lent place of one number.
ghost use Rattle.std.specs.Prelude.{◌≡◌, [], ◌∷◌};
ghost use Rattle.refusals.specs.Numbers.{status_of};
ghost use Rattle.refusals.specs.Refusals.{status, written};
ghost use Rattle.jpeg_block.specs.Places.{place_tests};

use refusals::Refusal;

// 0, or the refusal's number.
pub fn status(answer: Result<(), Refusal>) -> u32
    ensures { result ≡ status_of answer }
{
    match answer {
        Ok(()) => 0,
        Err(refusal) => refusal.number(),
    }
}

#[tactic(auto, using(crate::proofs::Places::one_left), unfolding(refusals::specs::Refusals::status, refusals::specs::Refusals::written))]
pub fn put<T: Copy>(value: T, place: &mut [T]) -> Result<(), Refusal>
    ensures value { status_of result ≡ status (place_tests place.old) }
    ensures place_after { place.new ≡ written (status_of result) (value ∷ []) place.old }
{
    Refusal::Output.unless(place.len() == 1)?;
    place[0] = value;
    Ok(())
}
