// The column and row pass of the 8-bit 8-point ISLOW transform without their zero shortcuts (idct.rs, `islow_pass1`, `islow_pass2`; document
// 01, "The inverse blocks"); in `zero_shortcut` with them.
//
// The transform scales by 2^CONST_BITS. The column pass scales down but for PASS1_BITS fraction bits; the row pass takes these and the 1/8
// normalisation off. Arithmetic wraps modulo 2^32, as document 01 has it; for 16-bit input the column pass does not
// (`column-eight` of block/proofs/Column.antt).

#![tactic(auto)]

pub mod zero_shortcut;

ghost use Rattle.std.specs.Prelude.{◌≡◌, map, ◌≤◌};
ghost use Rattle.std.specs.Int.{w32};
ghost use Rattle.gains.specs.Gains.{gains};
ghost use Rattle.scaling.specs.Scaling.{descaled};
ghost use Rattle.passes.specs.Passes.{pass};

use gains::{CONST_BITS, PASS1_BITS};
use islow::islow_1d;
use scaling::descale_by;

// Right shift that ends the column pass.
pub const PASS1_SHIFT: u32 = (CONST_BITS - PASS1_BITS) as u32;

// Right shift that ends the row pass, with the 1/8 normalisation.
pub const PASS2_SHIFT: u32 = (CONST_BITS + PASS1_BITS + 3) as u32;

// Each of eight values scaled down.
pub fn descale_8(values: [i32; 8], shift: u32) -> [i32; 8]
    requires { (1 ≤ shift) × (shift ≤ 31) }
    ensures { result ≡ map (λ v. descaled w32 v shift) values }
{
    let mut out = values;
    for i in 0..8 {
        out[i] = descale_by(values[i], shift);
    }
    out
}

// The column pass without its zero shortcut.
pub fn islow_pass1(p: [i32; 8]) -> [i32; 8]
    ensures { result ≡ pass w32 gains 11 p }
{
    descale_8(islow_1d(p), PASS1_SHIFT)
}

// The row pass without its zero shortcut. Samples are signed; `sample_u8` level-shifts and clamps them.
pub fn islow_pass2(p: [i32; 8]) -> [i32; 8]
    ensures { result ≡ pass w32 gains 18 p }
{
    descale_8(islow_1d(p), PASS2_SHIFT)
}
