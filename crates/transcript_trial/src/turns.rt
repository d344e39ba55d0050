// Reading the script, a record at a time.
use crate::carrying::carry_record;
use crate::printing::print_record;
use input::all_records;
use std::io::{Stdin, Stdout};

// Record after record, each with its string laid apart: it is carried out, and what it leaves is printed.
pub(crate) fn run(from: Stdin, to: Stdout) {
    for whole in all_records::<168>(from, to) {
        let mut string = [0u8; 64];
        string.copy_from_slice(&whole[104..]);
        let left = carry_record(&whole, &mut string);
        print_record(&to, left, &string);
    }
}
