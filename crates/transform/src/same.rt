// Sameness of two records (document 02, card 9).
ghost use Rattle.std.specs.Prelude.{◌≡◌};
ghost use Rattle.guarded_quantizer.specs.Same.{same_ac, same_divisors, same_records};

use guarded_quantizer::QuantizedBlock;

// AC places 1 to 63. No branch for each place, here and in `same_divisors`, so that the compiler tests many at once.
fn same_ac(a: &[i16; 64], b: &[i16; 64]) -> bool
    ensures { result ≡ same_ac a.now b.now }
{
    let mut same = true;
    for z in 1..64 {
        same &= a[z] == b[z];
    }
    same
}

#[tactic(auto, unfolding(lists::specs::Below::below))]
fn same_divisors(a: &[u8; 64], b: &[u8; 64]) -> bool
    ensures { result ≡ same_divisors a.now b.now }
{
    let mut same = true;
    for n in 0..64 {
        same &= a[n] == b[n];
    }
    same
}

// Whether DC, AC places 1 to 63 and all divisors agree, whatever the bitmaps and AC place 0 hold. An equivalence, and finer than the
// sameness of bare blocks (`same_refl`, `same-sym`, `same-trans` and `finer` of crate guarded_quantizer; `joined-before`).
pub fn same_records(a: QuantizedBlock, b: QuantizedBlock) -> bool
    ensures { result ≡ same_records a b }
{
    let numbers = (a.dc == b.dc) & same_ac(&a.ac_coefficients, &b.ac_coefficients);
    numbers & same_divisors(&a.divisors, &b.divisors)
}
