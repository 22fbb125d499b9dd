// Numbers of a fixed width, whose sums, differences and products wrap: the exact result, wrapped to the width (document 01, leaf 2).
//
// A generic function over them is one function at 32 and at 64 bits. The compiler makes one instruction of each method.

#![tactic(auto)]

ghost use Rattle.std.specs.Prelude.{◌≡◌, ◌^◌, ◌≤◌, ◌+ℤ◌, ◌-ℤ◌, ◌*ℤ◌, ℤ, pos};
ghost use Rattle.std.specs.Int.{Width, w32, w64};
ghost use Rattle.integers.specs.Wrap.{wrap, top_bit};
ghost use Rattle.integers.specs.Floor.{floor_div};

pub trait Wrapping: Copy {
    ghost width: { Width };

    // The number that a value stands for.
    ghost value: { Self → ℤ };

    fn from_i32(x: i32) -> Self
        ensures { value result ≡ x };

    fn add(self, other: Self) -> Self
        ensures { value result ≡ wrap width (value self +ℤ value other) };

    fn sub(self, other: Self) -> Self
        ensures { value result ≡ wrap width (value self -ℤ value other) };

    fn mul(self, other: Self) -> Self
        ensures { value result ≡ wrap width (value self *ℤ value other) };

    fn shl(self, bits: u32) -> Self
        requires { bits ≤ top_bit width }
        ensures { value result ≡ wrap width (value self *ℤ pos (2 ^ bits)) };

    // Rounds down.
    fn shr(self, bits: u32) -> Self
        requires { bits ≤ top_bit width }
        ensures { value result ≡ floor_div (value self) (2 ^ bits) };

    final fn times(self, constant: i32) -> Self
        ensures { value result ≡ wrap width (value self *ℤ constant) }
    {
        self.mul(Self::from_i32(constant))
    }
}

impl Wrapping for i32 {
    ghost width = { w32 };

    ghost value = { λ x. x };

    fn from_i32(x: i32) -> i32 {
        x
    }

    fn add(self, other: i32) -> i32 {
        i32::wrapping_add(self, other)
    }

    fn sub(self, other: i32) -> i32 {
        i32::wrapping_sub(self, other)
    }

    fn mul(self, other: i32) -> i32 {
        i32::wrapping_mul(self, other)
    }

    fn shl(self, bits: u32) -> i32 {
        self << bits
    }

    fn shr(self, bits: u32) -> i32 {
        self >> bits
    }
}

impl Wrapping for i64 {
    ghost width = { w64 };

    ghost value = { λ x. x };

    fn from_i32(x: i32) -> i64 {
        i64::from(x)
    }

    fn add(self, other: i64) -> i64 {
        i64::wrapping_add(self, other)
    }

    fn sub(self, other: i64) -> i64 {
        i64::wrapping_sub(self, other)
    }

    fn mul(self, other: i64) -> i64 {
        i64::wrapping_mul(self, other)
    }

    fn shl(self, bits: u32) -> i64 {
        self << bits
    }

    fn shr(self, bits: u32) -> i64 {
        self >> bits
    }
}
