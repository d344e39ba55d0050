// The registers of the host port: their record, each read and written by its number; the processor's access to them, and reset.
// Document 01, "The four host registers" (what each is, and what a write makes of it) and "The processor's side".
// The host's own access, with its memory cycle, is crates `port_spec`, what it means, and `port`, the code.
#![tactic(auto)]

mod parts;
mod processor;

use bus::Bus;
// The calls of a bench: each refuses by number what it does not do.
pub use processor::{processor_read, processor_write, reset};

// The parts that an access by the host is made of: they judge nothing.
pub use parts::{high_half_of, low_half_of, read_register, set_latch, set_pointer, write_register};
use words::BitAddress;

#[derive(Clone, Copy, Debug, PartialEq, Eq)]
pub struct Registers {
    // HSTADRL is its low half, HSTADRH its high half.
    pub pointer: BitAddress,
    // HSTDATA; with `hollow` beside it and no `Option`, since it keeps its word then, and reads as it.
    pub latch: u16,
    // HSTCTL.
    pub control: u16,
    // Set by reset and by a fetch that missed memory; cleared by a fetch inside memory, by the host's write of HSTDATA's closing byte
    // and by the processor's write of HSTDATA.
    pub hollow: bool,
}

// What a read by the processor answers: a number of document 01, "Numbers returned", and a word that is 0 with a refusal.
#[derive(Clone, Copy, Debug, PartialEq, Eq)]
pub struct ProcessorRead {
    pub number: u8,
    pub word: u16,
}

// What a write by the processor leaves: such a number, and the registers, which a refusal leaves as they are.
#[derive(Clone, Copy, Debug, PartialEq, Eq)]
pub struct ProcessorWrite {
    pub number: u8,
    pub registers: Registers,
}

// What reset leaves.
#[derive(Clone, Copy, Debug, PartialEq, Eq)]
pub struct Woken {
    pub registers: Registers,
    pub bus: Bus,
}
