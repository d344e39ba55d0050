// The writer and the reader of transcripts: document 02, request (ii). What a transcript means, and the laws of that, are crate
// `transcript_spec`; how one is looked through is crate `transcript_scan`; here is the code of the two calls. What they judge by is
// public too, for whoever has to know an answer before a list or a byte is touched.
#![tactic(auto)]

mod answers;
mod entries;
mod reading;
mod records;
mod writing;

pub use reading::{judge_bytes, read_transcript};
pub use records::judge_entry;
pub use writing::write_transcript;
