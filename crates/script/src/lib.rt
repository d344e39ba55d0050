// A script of calls, in text: one line of it read, and one line of answers printed. What a run of it holds, and what each call is and
// answers:
//
// WHAT A RUN HOLDS
//   the registers: at the start as reset leaves them;
//   the bus: at the start no source waits;
//   room for 32,769 words, all 0 at the start; the lent memory is its first `length` words; at the start the length is 32,768;
//   a list of 8,192 words of the caller's, all 0 at the start; the lent list is its first `size` words; at the start all of them.
//
// A SCRIPT
// is lines of exactly 38 bytes: a letter, then four numbers a, b, c and d, each a space and eight upper-case hexadecimal digits, then
// a line feed. It ends with the input. Anything else in the input, an unknown letter included, ends the run with the line
// `bad script`; the calls before it are carried out.
//
//   N  sets the length of the lent memory; the room's contents stay    a: length; above 32,769 it counts as 32,769
//   M  fills the whole room: word k becomes (a + k * b) mod 65,536      a, b
//   L  sets the size of the lent list; its contents stay                a: size; above 8,192 it counts as 8,192
//   J  fills the whole list: place k becomes (a + k * b) mod 65,536     a, b
//   G  sets the registers                                               a: pointer, b: HSTDATA mod 65,536, c: HSTCTL mod 65,536,
//                                                                       d: hollow if odd
//   Z  reset (registers and bus; memory stays)
//   R  host read                                                        a: register, b: lanes
//   W  host write                                                       a: register, b: lanes, c: word mod 65,536
//   H  host read that updates the register record in place              as R
//   K  host write that updates the register record in place             as W
//   P  processor read                                                   a: register
//   Q  processor write                                                  a: register, b: word mod 65,536
//   T  field taken out, unsigned                                        a: bit address, b: size
//   S  field taken out, signed                                          a: bit address, b: size
//   F  field put in                                                     a: bit address, b: size, c: value
//   A  a source asks for the bus                                        a: source
//   B  the bus is granted
//   C  hold is released
//   I  block read into the list                                         a + b * 2^32: place, c: count
//   O  block write from the list                                        a + b * 2^32: place, c: count
//   D  digests of the whole room and of the whole list
//
// WHAT IS PRINTED
// is a line of exactly 47 bytes for each call. After each space a number, in upper-case hexadecimal digits:
//   the letter;
//   the number returned, two digits;
//   x, eight digits, and y, eight digits;
//   then the state after the call: the pointer, eight digits; HSTDATA, four; HSTCTL as the record holds it, bit 10 too, four; the
//   hollow mark, 0 or 1; the bus, two digits (bit s set: source s waits);
//   a line feed.
//
//   R, W, H, K   x: the word answered. y: 16 if the answer is hollow, plus 0 for no cycle, 1 for inside, 2 for empty
//   P            x: the word answered
//   T, S         x: the number taken out (signed: modulo 2^32). y: the memory cycles
//   F            y: the memory cycles
//   B            x: the source granted
//   I            x: the hollow words handed out
//   O            x: the stores that fell empty
//   D            x: the digest of the room. y: the digest of the list
// Any x and y not listed here is 0. N, M, L, J, G, Z and D answer number 0. A refused call: x and y 0, the state as it stood.
// The digest of words: it starts as 0; for each word w, in order of their places, h becomes (h * 31 + w) mod 2^32.
#![tactic(auto)]

mod letters;
mod printing;
mod reading;

use bus::Bus;
pub use letters::{
    is_bus_letter, is_field_letter, is_host_letter, is_in_place_letter, is_plain_letter,
    is_processor_letter, is_whole_letter,
};
pub use printing::put_line;
pub use reading::read_line;
use registers::Registers;

// A call of a script. Its letter stays the byte that the line has: it is printed again, and the definitions of the letters are on bytes.
#[derive(Clone, Copy)]
pub struct Call {
    pub letter: u8,
    pub a: u32,
    pub b: u32,
    pub c: u32,
    pub d: u32,
}

// What a run holds, besides the room and the list: how much of them is lent is the smaller of the number here and what there is.
#[derive(Clone, Copy)]
pub struct State {
    pub registers: Registers,
    pub bus: Bus,
    pub length: usize,
    pub size: usize,
}

// What a call answers, and the state that it leaves: the number as the call returned it, 0 or why it was refused.
#[derive(Clone, Copy)]
pub struct Done {
    pub state: State,
    pub number: u8,
    pub x: u32,
    pub y: u32,
}
