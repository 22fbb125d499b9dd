// What the passes of the 12-bit blocks share (idct.rs, the 12-bit shifts and `descale_i64`; document 01, "The inverse blocks"): the
// shifts, widening to 64 bits, scaling down and adding p0's part.
ghost use Rattle.std.specs.Prelude.{◌≡◌, map, ◌≤◌, ◌+ℤ◌};
ghost use Rattle.std.specs.Int.{w32, w64};
ghost use Rattle.integers.specs.Wrap.{wrap};
ghost use Rattle.scaling.specs.Scaling.{descaled};

use gains::CONST_BITS;
use scaling::descale_by;
use wrapping::Wrapping;

// Fraction bits that the column pass keeps.
const PASS1_BITS_12: usize = 1;

// Right shift that ends the column pass; one and two more for 4×4 and 2×2.
pub const PASS1_SHIFT_12: u32 = (CONST_BITS - PASS1_BITS_12) as u32;

pub const PASS1_SHIFT_12_4X4: u32 = PASS1_SHIFT_12 + 1;

pub const PASS1_SHIFT_12_2X2: u32 = PASS1_SHIFT_12 + 2;

// Right shift that ends the row pass, with the 1/8 normalisation.
pub const PASS2_SHIFT_12: u32 = (CONST_BITS + PASS1_BITS_12 + 3) as u32;

pub const PASS2_SHIFT_12_4X4: u32 = PASS2_SHIFT_12 + 1;

pub const PASS2_SHIFT_12_2X2: u32 = PASS2_SHIFT_12 + 2;

pub fn widen_8(p: [i32; 8]) -> [i64; 8]
    ensures { result ≡ p }
{
    let mut out = [0i64; 8];
    for i in 0..8 {
        out[i] = i64::from(p[i]);
    }
    out
}

// Each value scaled down, in place.
pub fn descale_each(values: &mut [i64], shift: u32)
    requires { (1 ≤ shift) × (shift ≤ 63) }
    ensures { values.new ≡ map (λ v. descaled w64 v shift) values.old }
{
    for i in 0..values.len() {
        values[i] = descale_by(values[i], shift);
    }
}

// x added to each value, in place.
pub fn add_each(values: &mut [i32], x: i32)
    ensures { values.new ≡ map (λ v. wrap w32 (v +ℤ x)) values.old }
{
    for i in 0..values.len() {
        values[i] = values[i].add(x);
    }
}
