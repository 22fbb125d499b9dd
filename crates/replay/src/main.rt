// Runs the answers of the oracle and its harness, the files of data/, through the exported
// functions, and prints for each file how many records it holds and how many of them differ. A
// write that fails is `main`'s error.

#![tactic(auto)]

mod block_cases;
mod compare;
mod file;
mod forward_cases;
mod guarded_cases;
mod islow_cases;
mod numbers;
mod scaling_cases;
mod stored_cases;
mod wrapping_cases;

use std::io;

// One more function is a line in a `.._cases` module, and its answers in oracle/generate.rs.
fn main(rt: HostRuntime) -> io::Result<()> {
    crate::wrapping_cases::replay_all(&rt)?;
    crate::scaling_cases::replay_all(&rt)?;
    crate::islow_cases::replay_all(&rt)?;
    crate::block_cases::replay_all(&rt)?;
    crate::forward_cases::replay_all(&rt)?;
    crate::stored_cases::replay_all(&rt)?;
    crate::guarded_cases::replay_all(&rt)?;
    // Records of islow_block, where the answer of one is wrong at one place: the line shows that a
    // difference is seen.
    crate::block_cases::replay_narrow::<[u8; 64], _>(
        &rt,
        "deliberately_wrong",
        idct_8x8::islow_block,
    )
}
