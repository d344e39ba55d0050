// Transcripts off the serial line: document 02, request (vii). The bytes of a transcript come in deliveries, cut anywhere, and their reader
// keeps its place from one to the next. Here stand its types, what a delivery and the end answer and leave (specs/) and the laws of that
// (proofs/); the code is crate `stream`. What a transcript is, and its refusals 20 to 24, are crate `transcript_spec`.
#![tactic(auto)]

use transcript_spec::Part;

// How far a stream is read, between two deliveries. It starts fresh, and each call hands it back. A caller could make any other, and is
// answered too, as if the stream had come to just this.
#[derive(Clone, Copy)]
pub struct Stream {
    // How far the record is read that is being read.
    pub part: Part,
    // Where in the stream this record begins.
    pub from: u32,
    // How many bytes of the stream are read.
    pub taken: u32,
    // Nothing more is taken: the sender said that nothing follows, or a record was bad.
    // (A mark and no Option of a stream: an ended one keeps `from` and `taken`, as `end_answer` and `TookDelivery` say of any stream.)
    pub ended: bool,
}

// What a delivery answers, and what the end does.
// (`number` stays a number, 0 for none: the laws `comes_exactly` and `ends_exactly` speak of it.)
#[derive(Clone, Copy)]
pub struct Streamed {
    pub number: u8,
    // How many entries were handed out: those of the good records that this delivery finished, also under 21 to 23.
    pub count: usize,
    // Under 20 to 23: where in the whole stream the bad record begins. Else 0.
    pub place: u32,
    // The stream afterwards. Under 24, 25 and 26 it is as it was.
    pub stream: Stream,
}
