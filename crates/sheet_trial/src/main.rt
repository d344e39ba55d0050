// Carries out a script of strike sheets, read from standard input, and prints what each answers and leaves: document 02, requests
// (viii) and (ix).
// A second program, written in plain Rust from documents 01 and 02, does the same; `second/compare` holds what both print against
// each other.
//
// WHAT A RUN HOLDS
//   room for 32,769 words, all 0 at the start; the lent memory is its first words, as many as a record says;
//   a list of 36 doubles, all 0.0 at the start; the lent list is its first places, as many as a record says.
// Both persist from sheet to sheet.
//
// A SCRIPT
// is records of exactly 108 bytes: 54 numbers of 16 bits, low byte first, n0 to n53. It ends with the input. Bytes after the last whole
// record end the run with the line `bad script`; the sheets before them are carried out.
//
//   n0, n1      the pointer: low half, high half
//   n2          HSTDATA
//   n3          HSTCTL
//   n4          the hollow mark, set if odd
//   n5, n6      the table's bit address: low half, high half
//   n7, n8      the rule: low half, high half
//   n9, n10     hours, likewise
//   n11, n12    quarters, likewise
//   n13, n14    minutes, likewise
//   n15         how many places of the list are lent; above 36 it counts as 36
//   n16         how many words of the room are lent; above 32,769 it counts as 32,769
//   n17         the word number from which on n18 to n53 are laid into the room before the call; those beyond the room's end are dropped
//
// WHAT IS PRINTED
// is a line of exactly 650 bytes for each record: numbers in lower-case hexadecimal digits, with single spaces between them.
//   the number returned, two digits;
//   the rule shown, eight;
//   the strokes, four;
//   then the registers after the call: the pointer, eight; HSTDATA, four; HSTCTL as the record holds it, bit 10 too, four; the hollow
//   mark, 0 or 1;
//   the bit patterns of all 36 places of the list, sixteen each;
//   a line feed.
// The room is not printed: that a sheet leaves its memory as it was is proved.
#![tactic(auto)]

mod carrying;
mod printing;
mod reading;
mod turns;

fn main(rt: HostRuntime) {
    let mut room = [0u16; 32769];
    let mut list = [0.0; 36];
    turns::run(&mut room, &mut list, rt.stdin(), rt.stdout());
}
