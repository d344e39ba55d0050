// Salvage of a damaged transcript: document 02, request (xii). Here stand its type, what is salvaged, at once or piece by piece (specs/),
// and the laws of that (proofs/); the code is crate `salvage`. What a transcript is, and its refusals 20 to 23, are crate
// `transcript_spec`.

#![tactic(auto)]

// What salvage answers. Under number 24 the other parts are 0.
// (`number` and `stop` stay numbers, 0 for none: the law `salvage_exactly` speaks of both, and the report says `stop`.)
#[derive(Clone, Copy)]
pub struct Salvaged {
    // 0, or 24 where the bytes that are lent are too few.
    pub number: u8,
    // How many records are kept.
    pub kept: usize,
    // How many bytes of the damaged transcript are left: those behind the records that are kept.
    pub left: usize,
    // What stopped it: the refusal of the first bad record, 20 to 23, or 0 where none is bad.
    pub stop: u8,
}
