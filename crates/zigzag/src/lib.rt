// Zigzag order (`ZIGZAG` of jpeg.rs; in `natural` its inverse, `NATURAL_TO_ZIGZAG` of transform.rs; document 01, "The guarded quantizer"; T.81 A.3.6 and
// figure 5): place z of a stream of coefficients holds the coefficient with the natural index n = 8v + u.

#![tactic(auto)]

pub mod natural;

ghost use Rattle.std.specs.Prelude.{◌≡◌};
ghost use Rattle.zigzag.specs.Zigzag.{zigzag_order};

// The natural index at each place.
pub const ZIGZAG: [u8; 64] = [
    0, 1, 8, 16, 9, 2, 3, 10, 17, 24, 32, 25, 18, 11, 4, 5, 12, 19, 26, 33, 40, 48, 41, 34, 27, 20,
    13, 6, 7, 14, 21, 28, 35, 42, 49, 56, 57, 50, 43, 36, 29, 22, 15, 23, 30, 37, 44, 51, 58, 59,
    52, 45, 38, 31, 39, 46, 53, 60, 61, 54, 47, 55, 62, 63,
];

// ZIGZAG, as a value that a contract can speak of. Take it once, outside of loops: it is copied.
pub fn zigzag() -> [u8; 64]
    ensures { result ≡ zigzag_order }
{
    ZIGZAG
}
