// The block transforms for programs in C and in Rust: `rt lib jpeg_block` writes
// crates/jpeg_block/out/libjpeg_block.a, which include/jpeg_block.h and bindings/rust/src/lib.rs
// declare.
//
// Each function hands its buffers on to the entry that it is named for and answers that entry's number: 0, or a refusal's (document 01,
// "Refusing calls"), and then every buffer is as it was. Where C has more buffers than the entry, as for counts or a state, their lengths are
// tested too. A slice is a pointer and a length to C.

#![tactic(auto)]

mod canonical;
mod canonical_12bit;
mod canonical_record;
mod counts;
mod guarded;
mod inverse;
mod inverse_i32;
mod place;
mod planes;
mod queue;
mod records;
mod search;
mod stored;
mod strips;
mod tables;
