// The rows of the 12-bit 8×8 block (idct.rs, `islow_block_12bit`; document 01, "The inverse blocks"), at 64 bits, where nothing wraps
// (`exact-eight` of block/proofs/Exact.antt). Its columns fit 32 bits: they are those of `idct_8x8::islow_columns`.
ghost use Rattle.std.specs.Prelude.{◌≡◌, ◌≤◌, length};
ghost use Rattle.std.specs.Int.{w64};
ghost use Rattle.gains.specs.Gains.{gains};
ghost use Rattle.clamping.specs.Clamping.{sample12bit};
ghost use Rattle.passes.specs.Passes.{pass};
ghost use Rattle.block.specs.Block.{row_samples};

use crate::passes_12bit::{PASS2_SHIFT_12, descale_each, widen_8};
use block_access::{load_row, put_row};
use islow::islow_1d;

fn pass_8(p: [i64; 8], shift: u32) -> [i64; 8]
    requires { (1 ≤ shift) × (shift ≤ 63) }
    ensures { result ≡ pass w64 gains shift p }
{
    let mut q = islow_1d(p);
    descale_each(&mut q, shift);
    q
}

pub fn rows_8(w: &[[i32; 8]; 8], output: &mut [u16])
    requires { length output.old ≡ 64 }
    ensures { output.new ≡ row_samples (pass w64 gains 17) sample12bit 8 w.now }
{
    for y in 0..8 {
        let q = pass_8(widen_8(load_row(w, y)), PASS2_SHIFT_12);
        put_row(output, y * 8, &q);
    }
}
