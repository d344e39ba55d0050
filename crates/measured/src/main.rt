// Work for speed/run to count: a script of accesses, of blocks or of fields, carried out one after the other.
// speed/measured.c does the same in plain C, and must print the same.
//
// Standard input is the script, records of four numbers, each of four bytes, low byte first. The first record's first number says
// what the other records are: 0 accesses by the host, 1 blocks, else fields. What they answer goes into one sum. This is printed at
// the end, with a digest of the memory, and for blocks of the list.
#![tactic(auto)]

mod numbers;
mod sums;

use block::{block_read, block_write};
use field::{put_in, take_out, take_out_signed};
use input::{Unread, fill_whole};
use numbers::{access_of, begin_at, magnitude_of, record_of};
use port::host_access;
use std::io::Stdout;
use sums::{number_of_answer, stir, stir_block, stir_field};
use words::BitAddress;

// A record of the script. Any number may stand for a kind: those that have no meaning of their own have that of the last.
#[derive(Clone, Copy)]
pub(crate) struct Record {
    pub(crate) kind: u32,
    pub(crate) first: u32,
    pub(crate) second: u32,
    pub(crate) third: u32,
}

// A name and a sum, in hexadecimal. What standard output doesn't take is let go.
fn print_sum(to: Stdout, name: &str, sum: u32) {
    let _ = println!(to; "{name} {sum:08x}");
}

fn print_digest(to: Stdout, name: &str, list: &[u16]) {
    let sum = list.iter().fold(0, |sum, word| stir(sum, u32::from(*word)));
    print_sum(to, name, sum);
}

// A record: 0 for a read or 1 for a write, the register, the lanes, the word.
fn run_accesses(script: &[u8], memory: &mut [u16], to: Stdout) {
    let mut registers = registers::reset().registers;
    let mut sum = 0;
    for bytes in script.chunks_exact(16) {
        let o = host_access(registers, memory, access_of(record_of(bytes)));
        registers = o.registers;
        sum = stir(sum, number_of_answer(o.answer));
    }
    print_sum(to, "answers", sum);
    print_digest(to, "memory", memory);
}

// A record: 0 for a block read, 1 for a block write, else a word of the list is set; the pointer; the place; the count, or the
// word.
fn run_blocks(script: &[u8], memory: &mut [u16], list: &mut [u16; 4096], to: Stdout) {
    let mut registers = registers::reset().registers;
    let mut sum = 0;
    for bytes in script.chunks_exact(16) {
        let x = record_of(bytes);
        let place = x.second as usize;
        let count = x.third as usize;
        let begun = begin_at(registers, x.first);
        match x.kind {
            0 => {
                let o = block_read(begun, memory, list, place, count);
                registers = o.registers;
                sum = stir_block(sum, o.hollows, registers);
            }
            1 => {
                let o = block_write(begun, memory, list, place, count);
                registers = o.registers;
                sum = stir_block(sum, o.empties, registers);
            }
            _ => list[place % 4096] = (count % 65536) as u16,
        }
    }
    print_sum(to, "answers", sum);
    print_digest(to, "memory", memory);
    print_digest(to, "list", list);
}

// A record: 0 for taking out, 1 for taking out signed, else putting in; the bit address; the size; the value.
fn run_fields(script: &[u8], memory: &mut [u16], to: Stdout) {
    let mut sum = 0;
    for bytes in script.chunks_exact(16) {
        let x = record_of(bytes);
        let address = BitAddress(x.first);
        let size = x.second;
        sum = match x.kind {
            0 => {
                let t = take_out(memory, address, size);
                stir_field(sum, t.number, t.value, t.cycles)
            }
            1 => {
                let t = take_out_signed(memory, address, size);
                stir_field(sum, t.number, magnitude_of(t.value), t.cycles)
            }
            _ => {
                let p = put_in(memory, address, size, x.third);
                stir_field(sum, p.number, 0, p.cycles)
            }
        };
    }
    print_sum(to, "answers", sum);
    print_digest(to, "memory", memory);
}

// A read that fails ends the script.
fn main(rt: HostRuntime) {
    let mut input = [0u8; 65536];
    let mut memory = [0u16; 32768];
    let mut list = [0u16; 4096];
    let to = rt.stdout();
    let (Ok(n) | Err(Unread { all: n })) = fill_whole(&mut input, rt.stdin());
    if n < 16 {
        return;
    }
    let work = record_of(&input[..16]);
    let script = &input[16..n];
    match work.kind {
        0 => run_accesses(script, &mut memory, to),
        1 => run_blocks(script, &mut memory, &mut list, to),
        _ => run_fields(script, &mut memory, to),
    }
}
