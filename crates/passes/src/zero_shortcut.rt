// The column and row pass of the 8-bit 8-point ISLOW transform with their zero shortcuts (idct.rs, `islow_column`, `islow_row`; document 01,
// "The inverse blocks").
//
// The shortcuts are jidctint.c's. Where p[0]·2^13 fits 32 bits with its rounding they give what the full pass gives (`column-eight`,
// `row-eight` of block/proofs); where it does not they differ from the full pass, which wraps.
ghost use Rattle.std.specs.Prelude.{◌≡◌};
ghost use Rattle.integers.specs.Linear.{zero_at};
ghost use Rattle.passes.specs.Passes.{eight, column_pass, row_pass};

use crate::{islow_pass1, islow_pass2};
use gains::PASS1_BITS;
use scaling::descale_by;
use wrapping::Wrapping;

// Right shift of the row pass's zero shortcut.
pub const DC_SHIFT: u32 = (PASS1_BITS + 3) as u32;

// What the column pass's zero shortcut multiplies by: 2^PASS1_BITS.
pub const DC_GAIN: i32 = 1 << PASS1_BITS;

// Whether entries 1..7 are zero. One test of their bits together: no branch for each.
pub fn ac_is_zero(p: [i32; 8]) -> bool
    ensures { result ≡ zero_at eight.ac p }
{
    (p[1] | (p[2] | (p[3] | (p[4] | (p[5] | (p[6] | p[7])))))) == 0
}

// A column: `islow_pass1` with the zero shortcut.
pub fn islow_column(p: [i32; 8]) -> [i32; 8]
    ensures { result ≡ column_pass eight p }
{
    if ac_is_zero(p) {
        [p[0].times(DC_GAIN); 8]
    } else {
        islow_pass1(p)
    }
}

// A row: `islow_pass2` with the zero shortcut.
pub fn islow_row(p: [i32; 8]) -> [i32; 8]
    ensures { result ≡ row_pass eight p }
{
    if ac_is_zero(p) {
        [descale_by(p[0], DC_SHIFT); 8]
    } else {
        islow_pass2(p)
    }
}
