// Carries out a script of damaged transcripts, read from standard input, and prints what the salvage of each answers and leaves: document
// 02, request (xii). A second program, written in plain Rust from document 02, does the same; `second/compare` holds what both print
// against each other.
//
// A SCRIPT
// is records of exactly 130 bytes. It ends with the input. Bytes after the last whole record end the run with the line `bad script`;
// the records before them are carried out.
//
//   byte 0            how many bytes of the damaged transcript are lent; above 64 it counts as 64
//   byte 1            how many bytes are lent to be written; above 64 it counts as 64
//   bytes 2 to 65     the damaged transcript, 64 bytes
//   bytes 66 to 129   the bytes to be written, as they are before the call, 64 bytes
//
// WHAT IS PRINTED
// is exactly 76 bytes for each record, with nothing between them: the number returned, two lower-case hexadecimal digits; the records kept,
// four; the bytes left, four; what stopped it, two; then, as bytes and no digits, the 64 bytes to be written as the call left them.
#![tactic(auto)]

mod carrying;

use carrying::carry_out;
use input::all_records;
use salvage_spec::Salvaged;
use std::io::{Stdin, Stdout};

// What standard output doesn't take is let go (`let _`): nothing is said of it, and the script goes on.
fn print_record(rt: &impl Print, o: Salvaged, sound: &[u8]) {
    let _ = print!(rt;
        "{:02x}{:04x}{:04x}{:02x}",
        o.number, o.kept, o.left, o.stop
    );
    let _ = rt.write_all(sound);
}

// Record after record, each with the bytes to be written laid apart.
fn run(from: Stdin, to: Stdout) {
    for whole in all_records::<130>(from, to) {
        let mut sound = [0u8; 64];
        sound.copy_from_slice(&whole[66..]);
        let answer = carry_out(whole[0], whole[1], &whole[2..66], &mut sound);
        print_record(&to, answer, &sound);
    }
}

fn main(rt: HostRuntime) {
    run(rt.stdin(), rt.stdout());
}
