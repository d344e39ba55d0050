// Carries out a script of deliveries, read from standard input, and prints what each call answers and leaves: document 02, request (vii).
// A second program, written in plain Rust from document 02, does the same; `second/compare` holds what both print against each other.
//
// A SCRIPT
// is records of exactly 36 bytes, one for each call; the stream is kept from one record to the next. It ends with the input. Bytes after
// the last whole record end the run with the line `bad script`; the records before them are carried out.
//
//   byte 0            what is done, modulo 3: 0 a fresh start, 1 a delivery, 2 the end
//   byte 1            of a delivery: how many of the string's bytes are delivered; above 24 it counts as 24
//   bytes 2 to 5      of a delivery: how many places of the lists of kinds, registers, lanes and words are lent; above 6 each counts as 6
//   bytes 6, 7        play no part
//   bytes 8 to 11     of a fresh start: how many bytes the stream had already, of whole good records (32 bits, low byte first; 0 is the
//                     true fresh start): `from` and `taken` begin with that number
//   bytes 12 to 35    the string, 24 bytes
//
// Before the first record the stream is freshly started. Before each record every place of the four lists, six places each, holds
// EEEEEEEEh.
//
// WHAT IS PRINTED
// is one line for each record, lower-case hexadecimal digits with nothing between them: the number, two digits; the count, four; the place,
// eight; `ended`, one (0 or 1); `from`, eight; `taken`, eight; then the 24 numbers of the lists as the call left them, eight digits each:
// six kinds, six registers, six lanes, six words; then a line feed. A fresh start answers number 0, count 0, place 0; it and the end leave
// the lists untouched.
#![tactic(auto)]

mod carrying;
mod printing;
mod reading;
mod turns;

fn main(rt: HostRuntime) {
    turns::run(rt.stdin(), rt.stdout());
}
