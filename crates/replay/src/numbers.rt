// Numbers as a record has them: little-endian bytes.
use refusals::Refusal;
use std::num::{f64_from_bits_with_nan, f64_to_bits_with_nan};

// Puts at each place what the function makes of the other slice's entry there. Places that the
// other slice lacks stay as they were.
pub fn put_each<A: Copy, B: Drop, F: Fn(A) -> B>(to: &mut [B], from: &[A], f: F)
    requires { F.IsAlwaysCallable f }
{
    for (place, x) in to.iter_mut().zip(from) {
        *place = f(*x);
    }
}

// The bytes' first numbers; those that lack are 0.
pub fn numbers<B: Copy, T: Copy + Default, const N: usize, F: Fn(B) -> T>(
    bytes: &[B],
    number: F,
) -> [T; N]
    requires { F.IsAlwaysCallable number }
{
    let mut numbers = [T::default(); N];
    put_each(&mut numbers, bytes, number);
    numbers
}

pub fn f64_of(bytes: [u8; 8]) -> f64 {
    f64_from_bits_with_nan(u64::from_le_bytes(bytes))
}

pub fn bytes_of_f64(x: f64) -> [u8; 8] {
    f64_to_bits_with_nan(x).to_le_bytes()
}

// The answer that a call wrote: nothing where it refused.
// form kept: with `.ok()?` or `.ok().map(..)` instead, a closure that answers a type
// parameter was not proved callable.
pub fn accepted<A: Drop, T: Drop>(outcome: Result<A, Refusal>, answer: T) -> Option<T> {
    match outcome {
        Ok(_) => Some(answer),
        Err(_) => None,
    }
}
