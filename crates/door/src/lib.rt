// The C door: single accesses by the host, on a register image and a memory that are lent as bytes.
// Document 01, "Blocks and the two doors". What the bytes stand for, and the laws of a call, are crate `door_spec`; here is the code, and
// crate `door_c` exports the two calls to C.
//
// A call answers one number of 64 bits: bits 0-15 are the word, 16-23 the number, bit 24 the hollow mark, bits 25-26
// the cycle (0 none, 1 inside, 2 empty); the others are 0. Bits 32-59 are kept free for a word number.
//
// Both calls go alike: judged, and refused with nothing touched; or the image loaded, the access begun, and its cycle done over
// the lent bytes. They are two functions down to `begin_read` and `begin_write`, so that each compiles to its own access alone; and
// a read calls for no store, so its memory is lent for reading alone.
// Register and lanes are numbers: a C program hands in any, and is answered by number. Image and memory are two, since C lends them apart.
#![tactic(auto)]

mod answer;
mod image;
mod memory;

ghost use Rattle.std.specs.Prelude.{◌≡◌};
ghost use Rattle.words.specs.Refusals.{number_returned};
ghost use Rattle.port_spec.specs.Host.{finished};
ghost use Rattle.port_spec.specs.declared.Access.TheVariants.{Read, Write};
ghost use Rattle.door_spec.specs.Door.{misfit, call_number, Called};
ghost use Rattle.door.specs.Parts.{Closed};

use answer::{pack, refuse};
use image::{load, save};
use memory::{carry_bytes, fetch_if_due};
use port::{begin_read, begin_write};
use port_spec::{Access, Begun, Carried};
use words::{Refusal, bit_of};

// What is lent does not fit the door: number 11.
#[tactic(auto, unfolding(door_spec::specs::Door::misfit, door_spec::specs::Image::registers_of))]
fn is_misfit(image: &[u8; 9], memory: &[u8]) -> bool
    ensures { result ≡ misfit image.now memory.now }
{
    1 < image[8] || bit_of(u16::from_le_bytes([image[6], image[7]]), 10) || memory.len() % 2 == 1
}

// Whether a call is allowed: what is lent must fit, and then its access be one of the port's.
#[tactic(auto, unfolding(door_spec::specs::Door::call_number), using(door_spec::proofs::WordsAndBytes::words_length))]
fn judge_call(image: &[u8; 9], memory: &[u8], a: Access) -> Result<(), Refusal>
    ensures { number_returned result ≡ call_number image.now memory.now a }
{
    if is_misfit(image, memory) {
        return Err(Refusal::Misfit);
    }
    port::judge(memory.len() / 2, a)
}

// What is left of an accepted call once its access is begun and its cycle done: the image and the answer.
fn close_call(image: &mut [u8; 9], b: Begun, c: Carried) -> u64
    ensures { Closed (finished b c) result image.new }
{
    let done = port::finish(b, c);
    save(image, done.registers);
    pack(done.answer)
}

// A read of a register, for a C program. The memory after it is the memory before it.
pub fn host_port_read(image: &mut [u8], memory: &[u8], register: u32, lanes: u32) -> u64
    ensures { Called image.old memory.now (Read register lanes) result image.new memory.now }
{
    let Some(image) = image.as_mut_array::<9>() else {
        return refuse(Refusal::Misfit);
    };
    if let Err(refusal) = judge_call(image, memory, Access::Read { register, lanes }) {
        return refuse(refusal);
    }
    let b = begin_read(load(image), register, lanes);
    close_call(image, b, fetch_if_due(b.registers, b.due, memory))
}

// A write of a word to a register, for a C program.
pub fn host_port_write(
    image: &mut [u8],
    memory: &mut [u8],
    register: u32,
    lanes: u32,
    word: u16,
) -> u64
    ensures { Called image.old memory.old (Write register lanes word) result image.new
        memory.new }
{
    let a = Access::Write {
        register,
        lanes,
        word,
    };
    let Some(image) = image.as_mut_array::<9>() else {
        return refuse(Refusal::Misfit);
    };
    if let Err(refusal) = judge_call(image, memory, a) {
        return refuse(refusal);
    }
    let b = begin_write(load(image), register, lanes, word);
    close_call(image, b, carry_bytes(b.registers, b.due, memory))
}
