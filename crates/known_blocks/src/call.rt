// The functions, and which of a case's numbers are their inputs.
ghost use Rattle.std.specs.Prelude.{◌<◌};

use crate::case::Case;
use crate::show::{show, show_counts, show_refusal, show_rule};
use block::Clamped;
use refusals::Refusal;
use std::io;

// One place more than the longest input or output that a function takes.
const ROOM: usize = 65;

// Every place of an output's room holds this before the call. No answer below is it.
const FILL: u8 = 165;

pub fn descale(rt: &impl Print, case: &Case) -> io::Result<()> {
    let got = scaling::descale(case.i32_at(0), case.i32_at(1));
    show_refusal(rt, &got)?;
    show(rt, &[got.unwrap_or(0)])
}

pub fn sample_u8(rt: &impl Print, case: &Case) -> io::Result<()> {
    let got = clamping::sample_u8(case.i32_at(0));
    show(rt, &[i32::from(got.sample)])?;
    show_rule(rt, got.rule)
}

pub fn sample_12bit(rt: &impl Print, case: &Case) -> io::Result<()> {
    let got = clamping::sample_12bit(case.u64_at(0).cast_signed());
    show(rt, &[i32::from(got)])
}

pub fn islow_gain_bounds(rt: &impl Print) -> io::Result<()> {
    let got = gains::islow_gain_bounds();
    show(rt, &[got.max_gain])?;
    show(rt, &[got.max_l1])
}

// A room of zeros but for an entry.
fn only<T: Copy + Default>(entry: usize, value: T) -> [T; ROOM]
    requires { entry < 64 }
{
    let mut input = [T::default(); ROOM];
    input[entry] = value;
    input
}

// An entry, its value, and how many places the input and the output have. A second entry may be
// behind them: a value 0, as where a line ends before, is none.
pub fn narrow<F: Fn(&[i16], &mut [u8]) -> Result<Clamped, Refusal>>(
    rt: &impl Print,
    case: &Case,
    islow: F,
) -> io::Result<()>
    requires { F.IsAlwaysCallable islow }
{
    let mut input = only(case.entry(0), case.i16_at(1));
    let second = case.i16_at(7);
    if second != 0 {
        input[case.entry(6)] = second;
    }
    let mut room = [FILL; ROOM];
    let got = islow(&input[..case.places(2)], &mut room[..case.places(3)]);
    show_refusal(rt, &got)?;
    show(rt, &room.map(i32::from))?;
    show_counts(rt, got)
}

pub fn wide<F: Fn(&[i32], &mut [u8]) -> Result<Clamped, Refusal>>(
    rt: &impl Print,
    case: &Case,
    islow: F,
) -> io::Result<()>
    requires { F.IsAlwaysCallable islow }
{
    let input = only(case.entry(0), case.i32_at(1));
    let mut room = [FILL; ROOM];
    let got = islow(&input[..case.places(2)], &mut room[..case.places(3)]);
    show_refusal(rt, &got)?;
    show(rt, &room.map(i32::from))?;
    show_counts(rt, got)
}

pub fn deep<F: Fn(&[i16], &mut [u16]) -> Result<(), Refusal>>(
    rt: &impl Print,
    case: &Case,
    islow: F,
) -> io::Result<()>
    requires { F.IsAlwaysCallable islow }
{
    let input = only(case.entry(0), case.i16_at(1));
    let mut room = [u16::from(FILL); ROOM];
    let got = islow(&input[..case.places(2)], &mut room[..case.places(3)]);
    show_refusal(rt, &got)?;
    show(rt, &room.map(i32::from))
}

// Equal samples, but for up to six that are replaced, from number k on: a place and its value. A
// value 0, as where a line ends before, replaces nothing.
fn samples_of(case: &Case, k: usize) -> [u8; ROOM]
    requires { k < 9 }
{
    let mut samples = [case.u8_at(1); ROOM];
    for n in 0..6 {
        let value = case.u8_at(k + 2 * n + 1);
        if value != 0 {
            samples[case.entry(k + 2 * n)] = value;
        }
    }
    samples
}

// Equal quantizers but for the 64th: how many, what they are, 64, and what the 64th is.
fn table_of(case: &Case, k: usize) -> [u8; ROOM]
    requires { k < 17 }
{
    let mut quant = [case.u8_at(k + 1); ROOM];
    quant[63] = case.u8_at(k + 3);
    quant
}

// How many samples, and what they are, here and in the next two.
pub fn fdct_quantize(rt: &impl Print, case: &Case) -> io::Result<()> {
    let samples = samples_of(case, 7);
    let quant = [case.u8_at(3); ROOM];
    let mut room = [i16::from(FILL); ROOM];
    let got = fdct::fdct_quantize(
        &samples[..case.places(0)],
        &quant[..case.places(2)],
        &mut room[..case.places(4)],
    );
    show_refusal(rt, &got)?;
    show(rt, &room.map(i32::from))
}

pub fn fdct_quantize_coefficient(rt: &impl Print, case: &Case) -> io::Result<()> {
    let samples = samples_of(case, 4);
    let got = fdct::fdct_quantize_coefficient(
        &samples[..case.places(0)],
        case.u8_at(2),
        case.u64_at(3) as usize,
    );
    show_refusal(rt, &got)?;
    show(rt, &[i32::from(got.unwrap_or(0))])
}

// By the divisors of 64 quantizers 1.
pub fn transform_fdct_quantize(rt: &impl Print, case: &Case) -> io::Result<()> {
    let samples = samples_of(case, 6);
    let quant = table_of(case, 2);
    let got = fdct_f64::quantization_divisors(&[1; 64]).and_then(|divisors| {
        transform::fdct_quantize(
            &samples[..case.places(0)],
            &quant[..case.places(2)],
            divisors,
        )
    });
    show_refusal(rt, &got)?;
    show(rt, &[got.map_or(0, |block| i32::from(block.dc))])?;
    let bits = got.map_or(0, |block| block.nonzero_ac);
    print!(rt; " | bitmap {bits}")?;
    let ac_coefficients = got.map_or([0; 64], |block| block.ac_coefficients);
    show(rt, &ac_coefficients.map(i32::from))
}

// 1 for each reciprocal that is not 0.
pub fn quantization_divisors(rt: &impl Print, case: &Case) -> io::Result<()> {
    let quant = table_of(case, 0);
    let got = fdct_f64::quantization_divisors(&quant[..case.places(0)]);
    show_refusal(rt, &got)?;
    let reciprocals = got.map_or([0.0; 64], |divisors| divisors.reciprocals);
    show(rt, &reciprocals.map(|x| i32::from(x != 0.0)))
}

// An entry, its value, and how many places the input has, here and in the next two.
pub fn dequantize(rt: &impl Print, case: &Case) -> io::Result<()> {
    let input = only(case.entry(0), case.i16_at(1));
    let quant = [case.u8_at(4); ROOM];
    let mut room = [i32::from(FILL); ROOM];
    let got = stored_blocks::dequantize(
        &input[..case.places(2)],
        &quant[..case.places(3)],
        &mut room[..case.places(5)],
    );
    show_refusal(rt, &got)?;
    show(rt, &room)
}

fn show_answer(rt: &impl Print, got: Result<bool, Refusal>) -> io::Result<()> {
    show_refusal(rt, &got)?;
    show(rt, &[i32::from(got.unwrap_or(false))])
}

pub fn screen(rt: &impl Print, case: &Case) -> io::Result<()> {
    let input = only(case.entry(0), case.i16_at(1));
    let quant = [case.u8_at(4); ROOM];
    let got = stored_blocks::screen(&input[..case.places(2)], &quant[..case.places(3)]);
    show_answer(rt, got)
}

pub fn same(rt: &impl Print, case: &Case) -> io::Result<()> {
    let input = only(case.entry(0), case.i16_at(1));
    let other = only(case.entry(3), case.i16_at(4));
    let got = stored_blocks::same(&input[..case.places(2)], &other[..case.places(5)]);
    show_answer(rt, got)
}
