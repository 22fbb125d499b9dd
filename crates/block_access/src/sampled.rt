// Numbers before the clamp: 16- and 32-bit ones become 8-bit samples, 64-bit ones 12-bit samples.
ghost use Rattle.std.specs.Prelude.{◌≡◌};
ghost use Rattle.clamping.specs.Clamping.{sample_u8, sample12bit};

use clamping::{sample_12bit, sample_i16, sample_u8};

pub trait Sampled: Copy {
    type Sample: Copy;

    ghost clamp: { Self → Self.Sample };

    fn sample(self) -> Self::Sample
        ensures { result ≡ clamp self };
}

impl Sampled for i16 {
    type Sample = u8;

    ghost clamp = { sample_u8 };

    fn sample(self) -> u8 {
        sample_i16(self)
    }
}

impl Sampled for i32 {
    type Sample = u8;

    ghost clamp = { sample_u8 };

    fn sample(self) -> u8 {
        sample_u8(self).sample
    }
}

impl Sampled for i64 {
    type Sample = u16;

    ghost clamp = { sample12bit };

    fn sample(self) -> u16 {
        sample_12bit(self)
    }
}
