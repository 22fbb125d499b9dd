// The text of a block's coefficients (document 01, "Added by design"; Netpbm PGM).
//
// Input of 75 bytes, the header and 64 samples, gives eight lines of eight numbers: the canonical
// coefficients for quantizer 1. Any other input gives the line `refused 7`.

#![tactic(auto)]

mod decimal_lines;

ghost use Rattle.std.specs.Prelude.{◌≡◌, ◌≤◌, length};
ghost use Rattle.coefficient_text.specs.Text.{accepted};
ghost use Rattle.coefficient_text.specs.Answer.{printed, placed};
ghost use Rattle.refusals.specs.Refusals.{written};
ghost use Rattle.refusals.specs.Numbers.{status_of, told};

use crate::decimal_lines::{LINES, put_numbers};
use fdct::fdct_quantize;
use refusals::Refusal;

// Places of an output.
pub const TEXT: usize = LINES;

fn is_accepted(input: &[u8]) -> bool
    ensures { result ≡ accepted input.now }
{
    input.len() == 75 && input.starts_with(b"P5\n8 8\n255\n")
}

// How many bytes of text stand at the start of the output. Input that is not accepted has a text
// too, the line `refused 7`: the number is the program's, and this call has a result.
#[tactic(auto, unfolding(refusals::specs::Refusals::status, refusals::specs::Refusals::written))]
pub fn coefficient_text(input: &[u8], out: &mut [u8]) -> Result<usize, Refusal>
    ensures value { told 0 result ≡ printed input.now out.old }
    ensures out_after { out.new ≡ written (status_of result) (placed input.now out.old) out.old }
    ensures count_in_bounds { (told 0 result).value ≤ length out.new }
{
    Refusal::Output.unless(out.len() == TEXT)?;
    if !is_accepted(input) {
        let line = b"refused 7\n";
        out[..line.len()].copy_from_slice(line);
        return Ok(line.len());
    }
    let ones = [1u8; 64];
    let mut cs = [0i16; 64];
    fdct_quantize(&input[11..], &ones, &mut cs)?;
    Ok(put_numbers(&cs, out))
}
