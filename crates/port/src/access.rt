// The host's side of the port: one access.
// Registers and lanes are numbers, as `Access` has them: any may be given, and `judge` says which are refused.
ghost use Rattle.std.specs.Prelude.{◌≡◌};
ghost use Rattle.words.specs.Refusals.{number_returned};
ghost use Rattle.port_spec.specs.declared.Access.TheVariants.{Read, Write};
ghost use Rattle.port_spec.specs.Host.{read_due, write_due, begin_access, refusal, register_of, lanes_of, refused, finished, Accessed};

use crate::cycles::carry;
use control::{closes_word, fetches_by, steps_reading, steps_writing};
use port_spec::{Access, Answer, Begun, Carried, Cycle, Due, Outcome};
use registers::{Registers, read_register, set_latch, write_register};
use words::{Refusal, is_over_limit, names_lanes, show_bytes};

// The cycle that a read calls for: a fetch, for the closing byte of HSTDATA.
#[tactic(auto, unfolding(port_spec::specs::Host::read_due))]
fn due_of_read(c: u16, register: u32, lanes: u32) -> Due
    ensures { result ≡ read_due c register lanes }
{
    if register == 2 && closes_word(c, lanes) {
        Due::Fetch {
            with_step: steps_reading(c),
        }
    } else {
        Due::Nothing
    }
}

// The cycle that a write calls for: for the closing byte, a store of HSTDATA, or a fetch at the loaded pointer.
#[tactic(auto, unfolding(port_spec::specs::Host::write_due))]
fn due_of_write(c: u16, register: u32, lanes: u32) -> Due
    ensures { result ≡ write_due c register lanes }
{
    if closes_word(c, lanes) {
        if register == 2 {
            return Due::Store {
                with_step: steps_writing(c),
            };
        }
        if fetches_by(c, register) {
            return Due::Fetch { with_step: false };
        }
    }
    Due::Nothing
}

// A read on the registers alone. It refuses nothing: a register above 3 is taken for HSTCTL, so `judge` comes first.
#[tactic(auto, unfolding(port_spec::specs::Host::begin_access))]
pub fn begin_read(r: Registers, register: u32, lanes: u32) -> Begun
    ensures { result ≡ begin_access r (Read register lanes) }
{
    Begun {
        word: show_bytes(lanes, read_register(r, register)),
        hollow: register == 2 && r.hollow,
        registers: r,
        due: due_of_read(r.control, register, lanes),
    }
}

// A write on the registers alone, which refuses nothing either.
#[tactic(auto, unfolding(port_spec::specs::Host::begin_access))]
pub fn begin_write(r: Registers, register: u32, lanes: u32, word: u16) -> Begun
    ensures { result ≡ begin_access r (Write register lanes word) }
{
    Begun {
        word: 0,
        hollow: false,
        registers: write_register(r, register, lanes, word),
        due: due_of_write(r.control, register, lanes),
    }
}

// An access on the registers alone. A caller that knows its kind of access calls one of the two above, and the compiler keeps that
// one alone.
pub fn begin(r: Registers, a: Access) -> Begun
    ensures { result ≡ begin_access r a }
{
    match a {
        Access::Read { register, lanes } => begin_read(r, register, lanes),
        Access::Write {
            register,
            lanes,
            word,
        } => begin_write(r, register, lanes, word),
    }
}

// Whether a memory of so many words, and the register and lanes of an access, are allowed.
#[tactic(auto, unfolding(port_spec::specs::Host::refusal))]
pub fn judge(words: usize, a: Access) -> Result<(), Refusal>
    ensures { number_returned result ≡ refusal words (register_of a) (lanes_of a) }
{
    let (Access::Read { register, lanes }
    | Access::Write {
        register,
        lanes,
        ..
    }) = a;
    if is_over_limit(words) {
        return Err(Refusal::MemoryOverLimit);
    }
    if 3 < register {
        return Err(Refusal::UnknownRegister);
    }
    if !names_lanes(lanes) {
        return Err(Refusal::UnnamedLanes);
    }
    Ok(())
}

// A refusal: its number and zeros, and the registers as they stood. Any number may be given: `refuse_contract` says so.
pub fn refuse(number: u8, r: Registers) -> Outcome
    ensures { result ≡ refused number r }
{
    Outcome {
        answer: Answer {
            number,
            word: 0,
            hollow: false,
            cycle: Cycle::None,
        },
        registers: r,
    }
}

// What an access gave before its cycle, with what the cycle left.
pub fn finish(b: Begun, c: Carried) -> Outcome
    ensures { result ≡ finished b c }
{
    Outcome {
        answer: Answer {
            number: 0,
            word: b.word,
            hollow: b.hollow,
            cycle: c.cycle,
        },
        registers: c.registers,
    }
}

// One access by the host, on the lent memory.
//
// Three things here are for speed alone. The record is made anew, or its bytes of padding are carried along; each kind of access
// has its own cycle, or the compiler joins the two and tests the kind again; and a write asks for its cycle apart, since a case
// that is copied out of a record is a packed number to the compiler.
pub fn host_access(r: Registers, memory: &mut [u16], a: Access) -> Outcome
    ensures { Accessed r memory.old a result memory.new }
{
    let judged = judge(memory.len(), a);
    let s = set_latch(r, r.latch, r.hollow);
    if let Err(refusal) = judged {
        return refuse(u8::from(refusal), s);
    }
    match a {
        Access::Read { register, lanes } => {
            let b = begin_read(s, register, lanes);
            finish(b, carry(b.registers, b.due, memory))
        }
        Access::Write {
            register,
            lanes,
            word,
        } => {
            let b = begin_write(s, register, lanes, word);
            let due = due_of_write(s.control, register, lanes);
            finish(b, carry(b.registers, due, memory))
        }
    }
}
