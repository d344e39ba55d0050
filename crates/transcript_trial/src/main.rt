// Carries out a script of transcripts, read from standard input, and prints what each call answers and leaves: document 02, request (ii).
// A second program, written in plain Rust from document 02, does the same; `second/compare` holds what both print against each other.
//
// A SCRIPT
// is records of exactly 168 bytes. It ends with the input. Bytes after the last whole record end the run with the line `bad script`;
// the records before them are carried out.
//
//   byte 0             what is done: the writer if it is even, the reader if it is odd
//   byte 1             how many of the string's bytes are lent; above 64 it counts as 64
//   bytes 2 to 5       how many places of the lists of kinds, registers, lanes and words are lent; above 6 each counts as 6
//   bytes 6, 7         play no part
//   bytes 8 to 103     the lists: 24 numbers of 32 bits, low byte first; six kinds, six registers, six lanes, six words
//   bytes 104 to 167   the string, 64 bytes
//
// WHAT IS PRINTED
// is exactly 170 bytes for each record, with nothing between them: the number returned, two lower-case hexadecimal digits; the count,
// four; the place, four; then, as bytes and no digits, the lists and the string as the call left them, laid out as in the record.
#![tactic(auto)]

mod carrying;
mod printing;
mod reading;
mod turns;

fn main(rt: HostRuntime) {
    turns::run(rt.stdin(), rt.stdout());
}
