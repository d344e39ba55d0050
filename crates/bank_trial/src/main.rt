// Carries out a script for the bank selects, read from standard input, and prints what each call answers and leaves: document 02, request
// (vi). A second program, written in plain Rust from document 02, does the same; `second/compare` holds what both print against each other.
//
// A SCRIPT
// is records of exactly 40 bytes, one for each call; numbers are low byte first. The port (registers and index) is kept from one record to
// the next; before the first record all registers and the index are 0. The script ends with the input. Bytes after the last whole record
// end the run with the line `bad script`; the records before them are carried out.
//
//   byte 0          what is done, modulo 4: 0 a fresh start, 1 a read, 2 a write, 3 a decode
//   bytes 1 to 3    play no part
//   bytes 4 to 7    a number (32 bits): of a fresh start the index; of a read or a write the lanes; of a decode the kind
//   bytes 8 to 39   of a fresh start: the registers, 4 bytes each: compare value 0, mask 0, compare value 1, mask 1, .. mask 3
//                   of a write: bytes 8, 9 the word
//                   of a decode: bytes 8 to 11 the address, bytes 12, 13 the control word
//                   the others play no part
//
// WHAT IS PRINTED
// is one line for each record, lower-case hexadecimal digits with nothing between them: the number, two digits; the word, four; the
// selected banks, one digit whose bit n is bank n; then, as the record left them: the index, eight; compare value 0, mask 0, compare
// value 1, mask 1, .. mask 3, eight digits each; then a line feed. A fresh start answers number 0, word 0, no bank; a decode answers word 0
// and leaves the port; reads and writes answer no bank.
#![tactic(auto)]

mod carrying;
mod printing;
mod reading;
mod selecting;
mod turns;

fn main(rt: HostRuntime) {
    turns::run(rt.stdin(), rt.stdout());
}
