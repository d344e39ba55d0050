// The reader of transcripts that come in deliveries: document 02, request (vii). What a stream of deliveries means, and the laws of that,
// are crate `stream_spec`; how bytes are looked through is crate `transcript_scan`; here is the code of the three calls.
#![tactic(auto)]

mod answers;
mod calls;

pub use calls::{end_stream, start_stream, take_delivery};
