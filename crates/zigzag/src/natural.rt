// The inverse of zigzag order (`NATURAL_TO_ZIGZAG` of transform.rs): the place of the coefficient with each natural index.
ghost use Rattle.std.specs.Prelude.{◌≡◌};
ghost use Rattle.zigzag.specs.Zigzag.{places};

// The place of each natural index.
pub const NATURAL_TO_ZIGZAG: [usize; 64] = [
    0, 1, 5, 6, 14, 15, 27, 28, 2, 4, 7, 13, 16, 26, 29, 42, 3, 8, 12, 17, 25, 30, 41, 43, 9, 11,
    18, 24, 31, 40, 44, 53, 10, 19, 23, 32, 39, 45, 52, 54, 20, 22, 33, 38, 46, 51, 55, 60, 21, 34,
    37, 47, 50, 56, 59, 61, 35, 36, 48, 49, 57, 58, 62, 63,
];

// NATURAL_TO_ZIGZAG, as a value that a contract can speak of.
pub fn natural_to_zigzag() -> [usize; 64]
    ensures { result ≡ places }
{
    NATURAL_TO_ZIGZAG
}
