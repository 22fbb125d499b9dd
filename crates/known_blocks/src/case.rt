// The numbers of a case: the runs of digits in its line, a minus sign before some.
ghost use Rattle.std.specs.Prelude.{◌<◌, ◌≤◌};

// The most numbers that a case has.
const MOST: usize = 20;

// Those that a line lacks are 0.
#[derive(Drop)]
pub struct Case {
    numbers: [u64; MOST],
}

// One more digit. A number that does not fit is the largest.
fn append(value: u64, digit: u8) -> u64 {
    if value > 1_844_674_407_370_955_136 {
        u64::MAX
    } else {
        value * 10 + u64::from(digit.wrapping_sub(b'0'))
    }
}

impl Case {
    pub fn new(line: &[u8]) -> Case {
        let mut numbers = [0u64; MOST];
        let mut places = numbers.iter_mut();
        let mut minus = false;
        for run in line.chunk_by(|a, b| a.is_ascii_digit() == b.is_ascii_digit()) {
            if run.iter().all(|byte| byte.is_ascii_digit()) {
                let Some(place) = places.next() else { break };
                let value = run.iter().fold(0, |value, digit| append(value, *digit));
                // In two's complement.
                *place = if minus { value.wrapping_neg() } else { value };
            }
            minus = run.ends_with(b"-");
        }
        Case { numbers }
    }

    pub fn u64_at(&self, k: usize) -> u64 {
        self.numbers.get(k).copied().unwrap_or(0)
    }

    pub fn u8_at(&self, k: usize) -> u8 {
        (self.u64_at(k) % 0x100) as u8
    }

    pub fn i16_at(&self, k: usize) -> i16 {
        ((self.u64_at(k) % 0x1_0000) as u16).cast_signed()
    }

    pub fn i32_at(&self, k: usize) -> i32 {
        ((self.u64_at(k) % 0x1_0000_0000) as u32).cast_signed()
    }

    // How many places of a room.
    pub fn places(&self, k: usize) -> usize
        ensures { result ≤ 65 }
    {
        (self.u64_at(k) % 66) as usize
    }

    // A place of a block.
    pub fn entry(&self, k: usize) -> usize
        ensures { result < 64 }
    {
        (self.u64_at(k) % 64) as usize
    }
}
