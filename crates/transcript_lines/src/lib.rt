// The lines of `portlist` to a list of entries of a transcript, and back: each entry has one line, `R reg lanes` for a read and
// `W reg lanes hhhh` for a write. It is the text side of the program `transcript`. What the calls judge by is public too, for whoever
// has to know an answer before a list or a byte is touched.
#![tactic(auto)]

mod lines;
mod putting;
mod taking;

pub use lines::{entry_of, line_size};
pub use putting::put_lines;
pub use taking::{judge_lines, take_lines};

// Why the lines of a text are not taken.
#[derive(Clone, Copy, Debug, PartialEq, Eq)]
pub enum NotTaken {
    // A line is bad, a last one without its line feed included: so many good ones stand before it.
    BadLine(usize),
    // All lines are good, and there are more of them than the shortest list has places.
    NoPlaces,
}

// Why the entries of a list are not put as lines.
#[derive(Clone, Copy, Debug, PartialEq, Eq)]
pub enum NotPut {
    // No line can say the entry with this index, the first such.
    Unsayable(usize),
    // A line can say each entry, and the lines have more bytes than the text.
    NoBytes,
}
