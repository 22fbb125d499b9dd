// The folds of the canonical forward transform (fdct.rs, `fold`; document 01, leaf 4; document 02, card 5).
//
// Centred samples of up to 12 bits pair to at most 2^12 and fold to at most 2^13, so 16 bits hold them and nothing wraps. A row is
// written out, and made before it is stored, so that the compiler works on its four places at once: it cannot know that the lent places
// lie apart from the samples.
ghost use Rattle.std.specs.Prelude.{◌≡◌, ◌+◌, ◌^◌, ◌≤◌, ◌<◌, get_or, pos, nat_abs, ◌+ℤ◌};
ghost use Rattle.basis.specs.Basis.{signed};
ghost use Rattle.fdct_block.specs.Ready.{Centred, Folded};
ghost use Rattle.forward.specs.Parity.{folded, folded_quadrant};

// a + b, or a - b where odd.
fn pair(a: i16, b: i16, odd: bool) -> i16
    requires { (nat_abs a ≤ 2 ^ 13) × (nat_abs b ≤ 2 ^ 13) }
    ensures value { result ≡ a +ℤ signed odd b }
    ensures result_bound { nat_abs result ≤ nat_abs a + nat_abs b }
{
    if odd {
        return a - b;
    }
    a + b
}

// The pair of two samples at their places.
fn pair_at(samples: &[i16; 64], i: usize, j: usize, odd: bool) -> i16
    requires centred { Centred samples.now }
    requires i_bound { (i < 64) × (j < 64) }
    ensures value { result ≡ get_or samples.now i (pos 0) +ℤ signed odd (get_or samples.now j (pos 0)) }
    ensures result_bound { nat_abs result ≤ 2 ^ 12 }
{
    pair(samples[i], samples[j], odd)
}

// The fold of four samples: column x and row y below 4, for the parities of u and v.
fn fold_at(samples: &[i16; 64], u: usize, v: usize, x: usize, y: usize) -> i16
    requires centred { Centred samples.now }
    requires x_bound { (x < 4) × (y < 4) }
    ensures value { result ≡ folded samples.now u v x y }
    ensures result_bound { nat_abs result ≤ 2 ^ 13 }
{
    let top = pair_at(samples, 8 * y + x, 8 * y + (7 - x), u % 2 == 1);
    let bottom = pair_at(samples, 8 * (7 - y) + x, 8 * (7 - y) + (7 - x), u % 2 == 1);
    pair(top, bottom, v % 2 == 1)
}

// The folded quadrant of a block for the parities of u and v, index 4·row + column, into the caller's 16 places.
pub fn fold(samples: &[i16; 64], u: usize, v: usize, quadrant: &mut [i16; 16])
    requires centred { Centred samples.now }
    ensures quadrant_after { quadrant.new ≡ folded_quadrant samples.now u v }
    ensures folded { Folded quadrant.new }
{
    for y in 0..4 {
        let first = fold_at(samples, u, v, 0, y);
        let second = fold_at(samples, u, v, 1, y);
        let third = fold_at(samples, u, v, 2, y);
        let fourth = fold_at(samples, u, v, 3, y);
        quadrant[4 * y] = first;
        quadrant[4 * y + 1] = second;
        quadrant[4 * y + 2] = third;
        quadrant[4 * y + 3] = fourth;
    }
}
