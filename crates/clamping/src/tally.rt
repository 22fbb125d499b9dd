// What a sample adds to the two counts of document 02, card 4, in one number: 1 where it was raised, 256 where it was lowered. So many
// samples are counted by one sum, up to 255 of them. Each test is a number of 0 or 1, so that the compiler looks at several samples at once;
// the three-way `rule_of` would be jumps.
ghost use Rattle.std.specs.Prelude.{◌≡◌};
ghost use Rattle.clamping.specs.Rule.{rule_u8};
ghost use Rattle.clamping.specs.Counts.{tally_one};

use wrapping::Wrapping;

pub fn tally_i32(value: i32) -> u32
    ensures { result ≡ tally_one (rule_u8 value) }
{
    let sum = value.add(128);
    u32::from(sum < 0) + 256 * u32::from(sum > 255)
}

// Of a 16-bit number, whose sum does not wrap: it is compared before 128 is added, so that eight of them are looked at at once.
pub fn tally_i16(value: i16) -> u16
    ensures { result ≡ tally_one (rule_u8 value) }
{
    u16::from(value < -128) + 256 * u16::from(value > 127)
}
