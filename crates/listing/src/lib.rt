// The text of `portlist`: a line to an access, an answer to a line, a piece of input to a piece of output.
// Document 01, "Blocks and the two doors", its last part.
#![tactic(auto)]

mod answers;
mod following;
mod lines;
mod pieces;

pub use following::good_lines;
pub use lines::front_line;
pub use pieces::list_piece;
use port_spec::Access;
use registers::Registers;

// The line that a text begins with. Its three cases have names of their own: as a `Result` of an `Option` a line that may go on would be
// `Ok(None)`, and the laws that tell the cases apart (`FrontAs`) would read so too.
#[derive(Clone, Copy)]
pub enum Front {
    // A good line: the access that it asks for, and its length with its line feed.
    Good(Access, usize),
    // A line of another shape.
    Bad,
    // A line that may go on: its line feed is not there yet.
    Open,
}

// The accesses that the good lines of a text ask for, up to its first line that is bad or may go on; `left` is the text from there on, or
// what is still to come.
#[derive(Drop)]
pub struct Accesses<'a> {
    pub left: &'a [u8],
}

// What a piece of input leaves, besides the memory and the text: the registers, how many bytes the lines that were
// answered have, how many bytes their answers, and whether a bad line ended the listing; the counts hold whether it did or not, as
// `ListedPiece` says.
#[derive(Clone, Copy)]
pub struct Listed {
    pub registers: Registers,
    pub used: usize,
    pub wrote: usize,
    pub ended: bool,
}

// What a good line leaves, besides the memory and the text.
#[derive(Clone, Copy)]
pub(crate) struct Answered {
    pub(crate) registers: Registers,
    pub(crate) wrote: usize,
}
