// What is said on standard error: one line of a run that does not end well. A program of the kit has no status of its own, so this is how
// the command that runs it learns of that.

use input::Unread;
use output::Stuck;
use std::fmt;

// Why the listing does not end well.
#[derive(Clone, Copy, Debug, PartialEq, Eq)]
pub enum Failed {
    // The input can't be read to its end: nobody knows what would have followed.
    Unread(Unread),
    // The answers can't be written: nobody reads them any more, or the output takes no more for another reason.
    Stuck(Stuck),
    // A bad line ended the listing. Standard output has its own `bad line` by then.
    BadLine,
}

impl fmt::Display for Failed {
    fn fmt<W: fmt::Write>(&self, f: &mut fmt::Formatter<W>) -> fmt::Result {
        match self {
            Failed::Unread(unread) => write!(f, "{unread}"),
            Failed::Stuck(stuck) => write!(f, "{stuck}"),
            Failed::BadLine => write!(f, "bad line"),
        }
    }
}

impl From<Unread> for Failed {
    fn from(unread: Unread) -> Failed {
        Failed::Unread(unread)
    }
}

impl From<Stuck> for Failed {
    fn from(stuck: Stuck) -> Failed {
        Failed::Stuck(stuck)
    }
}
