// Numbers that fit 16 bits, cut to these.
ghost use Rattle.std.specs.Prelude.{◌≡◌};
ghost use Rattle.integers.specs.Fits16.{Fits16};
ghost use Rattle.lists.specs.Every.{Every};

pub fn to_i16(x: i32) -> i16
    requires { Fits16 x }
    ensures { result ≡ x }
{
    x as i16
}

pub fn narrow_8(q: [i32; 8]) -> [i16; 8]
    requires { Every Fits16 q }
    ensures { result ≡ q }
{
    let mut r = [0i16; 8];
    for k in 0..8 {
        r[k] = to_i16(q[k]);
    }
    r
}
