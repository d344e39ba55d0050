// Blocks: a count of two-lane reads of HSTDATA into a part of the caller's list, or of writes from one.
// Document 01, "Blocks and the two doors". Here stand the types, what a block means (specs/) and the laws of that (proofs/); the code is
// crate `block`.
#![tactic(auto)]

use registers::Registers;

// What a block read leaves, besides the list. `hollows` counts the hollow words handed out.
// (Two records whose `number` stays a number: `read_returns_number`, `write_returns_number` and docs/MANUAL.md speak of each by itself.)
#[derive(Clone, Copy)]
pub struct BlockRead {
    pub number: u8,
    pub hollows: u16,
    pub registers: Registers,
}

// What a block write leaves, besides the memory. `empties` counts the stores that fell empty.
#[derive(Clone, Copy)]
pub struct BlockWrite {
    pub number: u8,
    pub empties: u16,
    pub registers: Registers,
}

// What some accesses of a block leave: the registers, and how many of their answers are hollow, or fell empty. Only the code of
// crate `block` makes one; it is here because the laws of a block's parts (specs/Parts.antt) speak of it.
#[derive(Clone, Copy)]
pub struct Run {
    pub registers: Registers,
    pub tallied: u16,
}
