// Fields at work: document 01's cases to run, and some more at the edges. Each call prints a line, what it was asked and what it
// answered; putting in prints the memory too, its first three words at most.
// The stored output was worked out by hand from document 01, "Fields" and "Numbers returned".
// What standard output doesn't take is let go (`let _`): nothing is said of it, and the runs go on.
#![tactic(auto)]

use std::fmt;
use words::BitAddress;

// The first three words of a memory, or as many as it has, each behind a space.
#[derive(Clone, Copy)]
struct FirstWords<'a>(&'a [u16]);

impl fmt::Display for FirstWords<'_> {
    fn fmt<W: fmt::Write>(&self, f: &mut fmt::Formatter<W>) -> fmt::Result {
        for word in self.0.iter().take(3) {
            write!(f, " {word:04x}")?;
        }
        Ok(())
    }
}

fn put(rt: &impl Print, memory: &mut [u16], size: u32, at: u32, value: u32) {
    let answer = field::put_in(memory, BitAddress(at), size, value);
    let words = FirstWords(memory);
    let _ = println!(rt;
        "put size {size} at {at}: number {}, cycles {}, memory{words}",
        answer.number, answer.cycles
    );
}

fn take(rt: &impl Print, memory: &[u16], size: u32, at: u32) {
    let answer = field::take_out(memory, BitAddress(at), size);
    let _ = println!(rt;
        "take size {size} at {at}: number {}, cycles {}, value {}",
        answer.number, answer.cycles, answer.value
    );
}

fn take_signed(rt: &impl Print, memory: &[u16], size: u32, at: u32) {
    let answer = field::take_out_signed(memory, BitAddress(at), size);
    let _ = println!(rt;
        "take signed size {size} at {at}: number {}, cycles {}, value {}",
        answer.number, answer.cycles, answer.value
    );
}

// Sizes that are none, with a memory that would do.
fn run_sizes(rt: &impl Print) {
    let mut memory = [0u16; 2];
    put(rt, &mut memory, 0, 0, 0xffff_ffff);
    put(rt, &mut memory, 33, 0, 0xffff_ffff);
    take(rt, &memory, 0, 0);
    take_signed(rt, &memory, 33, 0);
}

// The whole of two words, and a bit more than they have.
fn run_two_words(rt: &impl Print) {
    let mut memory = [0u16; 2];
    put(rt, &mut memory, 32, 0, 0x8000_0000);
    take(rt, &memory, 32, 0);
    take_signed(rt, &memory, 32, 0);
    put(rt, &mut memory, 32, 1, 0xffff_ffff);
    take(rt, &memory, 32, 1);
    take(rt, &memory, 31, 1);
}

// A field that reaches a third word, and its neighbours.
fn run_three_words(rt: &impl Print) {
    let mut memory = [0u16; 3];
    put(rt, &mut memory, 24, 15, 0xffff_ffff);
    take(rt, &memory, 24, 15);
    take_signed(rt, &memory, 24, 15);
    put(rt, &mut memory, 16, 16, 0x1234);
    put(rt, &mut memory, 4, 14, 0xfff5);
    take(rt, &memory, 4, 14);
    take_signed(rt, &memory, 1, 15);
}

// Bits on both sides of a field, and the widest spread of one.
fn run_neighbours(rt: &impl Print) {
    let mut memory = [0xffffu16; 1];
    put(rt, &mut memory, 3, 5, 0);
    take_signed(rt, &memory, 1, 4);
    take(rt, &memory, 5, 4);
    let mut three = [0u16; 3];
    put(rt, &mut three, 32, 15, 0xffff_ffff);
    take_signed(rt, &three, 32, 15);
}

// No memory, the longest memory, and one word more.
fn run_lengths(rt: &impl Print) {
    let mut none = [0u16; 0];
    put(rt, &mut none, 1, 0, 1);
    take(rt, &none, 1, 0);
    take_signed(rt, &none, 1, 0);
    take(rt, &none, 33, 0xffff_ffff);
    put(rt, &mut none, 0xffff_ffff, 0xffff_ffff, 0);
    let mut longest = [0u16; 32768];
    put(rt, &mut longest, 1, 524287, 1);
    take_signed(rt, &longest, 2, 524286);
    put(rt, &mut longest, 2, 524287, 3);
    take(rt, &longest, 32, 0xffff_ffff);
    let mut longer = [0u16; 32769];
    put(rt, &mut longer, 1, 0, 1);
    take(rt, &longer, 0, 0);
    take_signed(rt, &longer, 1, 0);
}

fn main(rt: HostRuntime) {
    run_sizes(&rt);
    run_two_words(&rt);
    run_three_words(&rt);
    run_neighbours(&rt);
    run_lengths(&rt);
}
