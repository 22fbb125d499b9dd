// Numbers of 32 bits that fit 16 bits: the test, and the fact told to the compiler. The Rust has no such test; it is what lets the
// passes of idct.rs go by the products of 16-bit numbers (crate islow, `direct`).
ghost use Rattle.std.specs.Prelude.{◌≡◌};
ghost use Rattle.integers.specs.Fits16.{Fits16, fits16};
ghost use Rattle.lists.specs.Every.{every};

fn fits_16(x: i32) -> bool
    ensures { result ≡ fits16 x }
{
    (x >= -32768) & (x <= 32767)
}

// Whether all values fit. No branch for each, so that the compiler tests several at once.
pub fn all_fit(values: &[i32]) -> bool
    ensures { result ≡ every fits16 values.now }
{
    let mut all = true;
    for x in values {
        all = fits_16(*x) & all;
    }
    all
}

// Whether every number of every column fits 16 bits.
pub fn columns_fit<const N: usize>(w: &[[i32; N]; 8]) -> bool
    ensures { result ≡ every (every fits16) w.now }
{
    let mut all = true;
    for column in w {
        all = all_fit(column) & all;
    }
    all
}

// A number that fits, as it is. The compiler sees that it fits, and makes one instruction of two products of such numbers.
pub fn as_i16(x: i32) -> i32
    requires { Fits16 x }
    ensures { result ≡ x }
{
    i32::from(x as i16)
}
