// The refusals of documents 01 and 02: their numbers, and what calls answer by the lengths of what they were lent (document 01,
// "Refusing calls").

#![tactic(auto)]

ghost use Rattle.std.specs.Prelude.{◌≡◌, cond};
ghost use Rattle.refusals.specs.Numbers.{number};

use std::error::Error;
use std::fmt;

// Why a call is refused, in the order of the numbers.
#[derive(Clone, Copy, Debug, PartialEq, Eq)]
pub enum Refusal {
    // An input block not of its 64 places.
    Block,
    // A quantizer table not of 64.
    Table,
    // An output of the wrong length.
    Output,
    // An index above 63.
    Index,
    // A quantizer 0.
    ZeroQuantizer,
    // A shift outside 1..31.
    Shift,
    // Input that is not the program's.
    Input,
    // A width or height outside 1..4096.
    Measure,
    // Samples that are not as many as width times height.
    Samples,
    // A picture that is not read.
    Picture,
    // A percent outside 1..200.
    Percent,
    // A sample above 4095.
    Sample,
    // A bench queue's state, or a bench, out of range.
    State,
    // More than 65535 blocks at a bench.
    Full,
    // Two strips with other divisors.
    Divisors,
    // Two strips of other heights.
    Heights,
    // A left strip that ends inside a block.
    Seam,
}

impl Refusal {
    pub fn number(self) -> u32
        ensures { result ≡ number self }
    {
        match self {
            Refusal::Block => 1,
            Refusal::Table => 2,
            Refusal::Output => 3,
            Refusal::Index => 4,
            Refusal::ZeroQuantizer => 5,
            Refusal::Shift => 6,
            Refusal::Input => 7,
            Refusal::Measure => 8,
            Refusal::Samples => 9,
            Refusal::Picture => 10,
            Refusal::Percent => 11,
            Refusal::Sample => 12,
            Refusal::State => 13,
            Refusal::Full => 14,
            Refusal::Divisors => 15,
            Refusal::Heights => 16,
            Refusal::Seam => 17,
        }
    }

    // A test of a call: the refusal, unless it passes.
    pub fn unless(self, passes: bool) -> Result<(), Refusal>
        ensures { result ≡ cond passes (Ok tt) (Err self) }
    {
        if passes { Ok(()) } else { Err(self) }
    }
}

impl fmt::Display for Refusal {
    fn fmt<W: fmt::Write>(&self, f: &mut fmt::Formatter<W>) -> fmt::Result {
        write!(f, "refused {}", self.number())
    }
}

impl Error for Refusal {}
