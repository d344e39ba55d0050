// A transcript: a list of host accesses as bytes, in a compact form that both benches can exchange. Document 02, request (ii). Here stand
// its types, what it means (specs/) and the laws of that (proofs/); the code is crate `transcript`.

#![tactic(auto)]

// One access of a list: kind 0 reads and kind 1 writes. Any numbers can be given, and are judged by the writer.
#[derive(Clone, Copy)]
pub struct Entry {
    pub kind: u32,
    pub register: u32,
    pub lanes: u32,
    pub word: u32,
}

// What the writer and the reader answer. `count` is the bytes that were written, or the entries that were read. A refused call has count
// 0, and `place` is that of the first bad record: its index for the writer, its first byte for the reader; 0 under number 24.
// (`number` stays a number, 0 for none: the laws `writer_exactly` and `reader_exactly` speak of it.)
#[derive(Clone, Copy)]
pub struct Transcribed {
    pub number: u8,
    pub count: usize,
    pub place: usize,
}

// A number that is being read, group by group. (Marks and no Option: `take_delivery` promises an answer for any stream, also one with a
// number that has not begun and has a value all the same.)
#[derive(Clone, Copy)]
pub struct Number {
    // Some of its bytes were read.
    pub begun: bool,
    // Its first group is 0, and another follows.
    pub padded: bool,
    // What its groups make so far. From 65,536 on it stays as it is: it is too large, whatever follows.
    pub value: u32,
}

// How far a record is read, between two bytes.
#[derive(Clone, Copy)]
pub enum Part {
    // Before its head, or within it.
    Head(Number),
    // Its head is read and calls for a word: before that word, or within it.
    Word(u32, Number),
}

// What a byte makes of a part. (Each caller tells the three cases apart at once: a Result of an Option would be matched twice.)
#[derive(Clone, Copy)]
pub enum Step {
    // The record goes on.
    Goes(Part),
    // It is whole and good: the entry that it stands for.
    Whole(Entry),
    // It is bad: the number with which it is refused, as `head_read` and `word_read` give it.
    Bad(u8),
}
