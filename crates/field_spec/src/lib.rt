// Bit fields in a memory of 16-bit words: document 01, "Fields". Here stand the types of the answers, what a field is, bit by bit, what its
// words cost and what each call answers (specs/), and the laws of that (proofs/); the code is crate `field`. An answer's `number` stays a
// number, as document 01 has it, "Numbers returned".

#![tactic(auto)]

// What taking out answers: the field as a number, a `u32` where it is read as unsigned and an `i32` where it is read as signed, and the
// memory cycles.
#[derive(Clone, Copy, Debug, PartialEq, Eq)]
pub struct Taken<T> {
    pub number: u8,
    pub value: T,
    pub cycles: u32,
}

// What putting in answers, besides the memory.
#[derive(Clone, Copy, Debug, PartialEq, Eq)]
pub struct Put {
    pub number: u8,
    pub cycles: u32,
}
