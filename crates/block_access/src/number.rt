// Numbers of 16 and of 32 bits: what the loads, the tests and the counts of both need of one.
ghost use Rattle.std.specs.Prelude.{◌≡◌, ◌&&◌, List, ℕ, ◌<◌, ◌≤◌, length, get_or, ℤ, pos, refl, ⊤};
ghost use Rattle.std.proofs.lemmas.List.{get_or_default};
ghost use Rattle.integers.specs.Fits16.{Fits16};
ghost use Rattle.integers.proofs.Fits16.{fits16-zero};
ghost use Rattle.block.specs.Level.{is_zero};
ghost use Rattle.clamping.specs.Counts.{tally_one};
ghost use Rattle.clamping.specs.Rule.{rule_u8};

use clamping::tally::{tally_i16, tally_i32};

pub trait Number: Copy {
    // The number that a value stands for, and those of a list.
    ghost value: { Self → ℤ };

    ghost values: { List Self → List ℤ };

    // What holds of such a number beside that it is of 32 bits.
    ghost Fits: { ℤ → Type 0 };

    fn widen(self) -> i32
        ensures value { result ≡ value self }
        ensures fits { Fits result };

    fn zero() -> Self
        ensures { value result ≡ pos 0 };

    // Zero where both are.
    fn or(self, other: Self) -> Self
        ensures { is_zero (value result) ≡ (is_zero (value self) && is_zero (value other)) };

    // What the clamp of this number adds to the counts, both in one (`tally_one`).
    fn tally(self) -> u16
        ensures value { result ≡ tally_one (rule_u8 (value self)) }
        ensures upper_bound { result ≤ 256 };

    ghost fits_zero: { Fits (pos 0) };

    ghost length_values: { (xs : List Self) → length (values xs) ≡ length xs };

    ghost values_at: { (xs : List Self) (k : ℕ) (x : Self) → k < length xs → get_or (values xs) k (pos 0) ≡ value (get_or xs k x) };
}

impl Number for i16 {
    ghost value = { λ x. x };

    ghost values = { λ xs. xs };

    ghost Fits = { Fits16 };

    fn widen(self) -> i32 {
        i32::from(self)
    }

    fn zero() -> i16 {
        0
    }

    fn or(self, other: i16) -> i16 {
        self | other
    }

    fn tally(self) -> u16 {
        tally_i16(self)
    }

    ghost fits_zero = { fits16-zero };

    ghost length_values = { λ xs. refl };

    ghost values_at = { λ xs k x h. get_or_default xs k (pos 0) x h };
}

impl Number for i32 {
    ghost value = { λ x. x };

    ghost values = { λ xs. xs };

    ghost Fits = { λ _. ⊤ };

    fn widen(self) -> i32 {
        self
    }

    fn zero() -> i32 {
        0
    }

    fn or(self, other: i32) -> i32 {
        self | other
    }

    fn tally(self) -> u16 {
        tally_i32(self) as u16
    }

    ghost fits_zero = { tt };

    ghost length_values = { λ xs. refl };

    ghost values_at = { λ xs k x h. get_or_default xs k (pos 0) x h };
}
