// The host port of the TMS34010: an access by the host, what it is made of and what it answers. Document 01, "The four host registers".
// Here stand its types, what it means (specs/) and the laws of that (proofs/); the code is crate `port`.
// `Due` and `Cycle` are no Options: document 01 names their three cases alike, and each `match` here names all three.
#![tactic(auto)]

ghost use Rattle.std.specs.Prelude.{◌≡◌, ◌≤◌};
ghost use Rattle.port_spec.specs.Cycle.{cycle_number, brought};

use registers::Registers;

// An access by the host, of register 0 to 3 on lanes 1 to 3; any other number is refused, so both stay plain numbers.
#[derive(Clone, Copy)]
pub enum Access {
    Read {
        register: u32,
        lanes: u32,
    },
    Write {
        register: u32,
        lanes: u32,
        word: u16,
    },
}

// The memory cycle that an access calls for. The pointer steps before a fetch, or after a store, where `with_step` says so.
#[derive(Clone, Copy)]
pub enum Due {
    Nothing,
    Fetch { with_step: bool },
    Store { with_step: bool },
}

// The memory cycle that an access had: none, one at a word of the lent memory, or one at a word that isn't there.
#[derive(Clone, Copy)]
pub enum Cycle {
    None = 0,
    Inside = 1,
    Empty = 2,
}

// The number of a cycle, for a caller that can't be handed an enum.
impl From<Cycle> for u32 {
    fn from(c: Cycle) -> u32
        ensures { (result ≡ cycle_number c) × (result ≤ 2) }
    {
        c as u32
    }
}

// What a fetch brings to HSTDATA: a word, and whether memory has it.
#[derive(Clone, Copy, Debug, PartialEq, Eq)]
pub struct Fetched {
    pub word: u16,
    pub inside: bool,
}

// What a fetch found, as it brings it: the filler FFFFh where memory has no such word.
impl From<Option<u16>> for Fetched {
    fn from(found: Option<u16>) -> Fetched
        ensures { result ≡ brought found }
    {
        Fetched {
            word: found.unwrap_or(0xffff),
            inside: found.is_some(),
        }
    }
}

// What the host is told. `number` is 0 or a refusal's, and beside it stand word, mark and cycle: document 01, "Each host answer has".
#[derive(Clone, Copy)]
pub struct Answer {
    pub number: u8,
    pub word: u16,
    pub hollow: bool,
    pub cycle: Cycle,
}

// What an access by the host leaves, besides the memory.
#[derive(Clone, Copy)]
pub struct Outcome {
    pub answer: Answer,
    pub registers: Registers,
}

// An access before its cycle: what it will answer, the registers with the written bytes, the cycle that is due.
// What it will answer has word and mark beside each other, as `Answer` has them: document 01, "Each host answer has".
#[derive(Clone, Copy)]
pub struct Begun {
    pub word: u16,
    pub hollow: bool,
    pub registers: Registers,
    pub due: Due,
}

// What a cycle leaves, besides the memory.
#[derive(Clone, Copy)]
pub struct Carried {
    pub registers: Registers,
    pub cycle: Cycle,
}
