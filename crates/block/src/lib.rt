// Blocks: a count of two-lane reads of HSTDATA into a part of the caller's list, or of writes from one.
// What a block means, and the laws of that, are crate `block_spec`; here is the code.
//
// A block is its single accesses, one after another. Those that step from word to word inside memory are done by
// copying; the others, where the pointer stays or leaves memory, go one by one.
//
// Reading and writing stay two files: a read writes the list and a write the memory, and no step of the two is the same but what
// `copying` and `judging` hold.
#![tactic(auto)]

mod copying;
mod judging;
mod reading;
mod writing;

pub use reading::block_read;
pub use writing::block_write;
