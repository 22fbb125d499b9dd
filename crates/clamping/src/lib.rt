// Clamping to samples (idct.rs; document 01, leaf 1), and which rule gave a sample (document 02, card 4).

#![tactic(auto)]

pub mod tally;

ghost use Rattle.std.specs.Prelude.{◌≡◌};
ghost use Rattle.clamping.specs.Clamping.{sample_u8, sample_centered, sample12bit};
ghost use Rattle.clamping.specs.Rule.{rule_to, sampled_u8};

use wrapping::Wrapping;

// Raised to 0, lowered to 255, or within: then the sample is the sum itself.
#[derive(Clone, Copy, Debug, PartialEq, Eq)]
pub enum Rule {
    Raised,
    Lowered,
    Within,
}

#[derive(Clone, Copy, Debug, PartialEq, Eq)]
pub struct Sample {
    pub sample: u8,
    pub rule: Rule,
}

fn rule_of(sum: i32) -> Rule
    ensures { result ≡ rule_to 255 sum }
{
    if sum < 0 {
        Rule::Raised
    } else if sum > 255 {
        Rule::Lowered
    } else {
        Rule::Within
    }
}

// An 8-bit sample, and the rule that gave it.
pub fn sample_u8(value: i32) -> Sample
    ensures { result ≡ sampled_u8 value }
{
    let sum = value.add(128);
    Sample {
        sample: sum.clamp(0, 255) as u8,
        rule: rule_of(sum),
    }
}

// The sample of a 16-bit number: its sum does not wrap, and held to 127 before 128 is added it fits 16 bits. The compiler clamps eight
// of them at once.
pub fn sample_i16(value: i16) -> u8
    ensures { result ≡ sample_u8 value }
{
    (value.min(127) + 128).max(0) as u8
}

// An 8-bit sample centred on zero.
pub fn sample_centered(value: i32) -> i32
    ensures { result ≡ sample_centered value }
{
    value.clamp(-128, 127)
}

// A 12-bit sample: clamped before the level shift, so that the sum cannot overflow.
pub fn sample_12bit(value: i64) -> u16
    ensures { result ≡ sample12bit value }
{
    (value.clamp(-2048, 2047) + 2048) as u16
}
