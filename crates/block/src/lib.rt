// Definitions of the inverse blocks and their laws, and no code (idct.rs; document 01, "The inverse blocks").

#![tactic(auto)]

// What an 8-bit inverse answers (document 02, card 4): how many samples the clamp raised to 0, and how many it lowered to 255.
#[derive(Clone, Copy, Debug, PartialEq, Eq)]
pub struct Clamped {
    pub raised: u32,
    pub lowered: u32,
}
