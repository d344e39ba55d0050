// Standard input, as the programs read it: a read behind the bytes that are held, the whole of it as far as a buffer has room, or a record
// of a script at a time. No contract can say what is read; these say how much there is then, and what stays.
#![tactic(auto)]

mod filling;
mod records;
mod whole;

pub use filling::fill;
pub use records::{Records, all_records, places_lent, read_record, read_record_from};
use std::error::Error;
use std::fmt;
pub use whole::fill_whole;

// A read failed, and brought nothing: there are as many bytes as before it.
#[derive(Clone, Copy, Debug, PartialEq, Eq)]
pub struct Unread {
    pub all: usize,
}

impl fmt::Display for Unread {
    fn fmt<W: fmt::Write>(&self, f: &mut fmt::Formatter<W>) -> fmt::Result {
        write!(f, "the input can't be read to its end")
    }
}

impl Error for Unread {}
