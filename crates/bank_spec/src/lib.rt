// The bank selects of the TMS34094, the bridge to an ISA bus: document 02, request (vi), taken from source document 001. They tell up to
// four banks of devices on a board's local bus whether a cycle is for them, each by its own compare value and mask. Here stand the types,
// what the port to these registers and a decode answer (specs/) and the laws of that (proofs/); the code is crate `bank`. An answer's
// `number` stays a number, as document 01 has it, "Numbers returned".

#![tactic(auto)]

// One bank: what the local address is compared with.
#[derive(Clone, Copy, Debug, PartialEq, Eq)]
pub struct Bank {
    // BKAD: the address compare value.
    pub compare: u32,
    // BKMSK: a bit that is set allows the comparison of that bit, one that is clear has it disregarded.
    pub mask: u32,
}

// The registers of all four. (No array: to the laws an array is a list, which may have any length, so that `reads_back`, `set_up` and
// `told_by_places`, which hold of any registers, would have to ask for four.)
#[derive(Clone, Copy, Debug, PartialEq, Eq)]
pub struct Banks {
    pub bank0: Bank,
    pub bank1: Bank,
    pub bank2: Bank,
    pub bank3: Bank,
}

// The registers as the host reaches them: through the one port BKPORT, a half at a time.
#[derive(Clone, Copy, Debug, PartialEq, Eq)]
pub struct BankPort {
    pub banks: Banks,
    // BPNT: the place that the next access reaches. Any number may be passed, and counts modulo 16.
    pub index: u32,
}

// What an access to the port answers.
#[derive(Clone, Copy, Debug, PartialEq, Eq)]
pub struct BankAnswer {
    pub number: u8,
    // Of a read: the half. Else 0.
    pub word: u16,
    // The port afterwards. Refused, under 3 and 30, it is as it was.
    pub port: BankPort,
}

// What a decode answers: its number, and of each bank whether it is selected. (No array, as in `Banks`: `bit_by_bank` holds of any answer.)
#[derive(Clone, Copy, Debug, PartialEq, Eq)]
pub struct Decoded {
    pub number: u8,
    pub bank0: bool,
    pub bank1: bool,
    pub bank2: bool,
    pub bank3: bool,
}
