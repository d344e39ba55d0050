// What is said on standard error of an input that is not turned, or not written.
use crate::Way;
use input::Unread;
use output::Stuck;
use std::fmt;

// A place in the input, with so many lines or bytes before it.
#[derive(Clone, Copy, Debug, PartialEq, Eq)]
pub(crate) struct Place {
    pub(crate) way: Way,
    pub(crate) before: usize,
}

// Lines are counted from 1, bytes from 0.
impl fmt::Display for Place {
    fn fmt<W: fmt::Write>(&self, f: &mut fmt::Formatter<W>) -> fmt::Result {
        let before = self.before;
        match self.way {
            Way::Bytes => {
                let line = before.wrapping_add(1);
                write!(f, "line {line}")
            }
            Way::Lines => write!(f, "byte {before}"),
        }
    }
}

// Why nothing was written, or not all of it.
#[derive(Clone, Copy, Debug, PartialEq, Eq)]
pub(crate) enum Failed {
    // The argument names no way.
    NoWay,
    // The input can't be read to its end: nobody knows what would have followed.
    Unread(Unread),
    // More is there than 32,768 accesses ever have.
    TooLong,
    BadLine(Place),
    // With the number of the refusal.
    Refused(Place, u8),
    TooMany,
    // What was turned can't be written: nobody reads it any more, or the output takes no more for another reason.
    Stuck(Stuck),
}

impl fmt::Display for Failed {
    fn fmt<W: fmt::Write>(&self, f: &mut fmt::Formatter<W>) -> fmt::Result {
        match self {
            Failed::NoWay => write!(f, "say bytes or lines"),
            Failed::Unread(unread) => write!(f, "{unread}"),
            Failed::TooLong => write!(f, "input too long"),
            Failed::BadLine(place) => write!(f, "{place}: bad line"),
            Failed::Refused(place, number) => write!(f, "{place}: refused with {number}"),
            Failed::TooMany => write!(f, "more than 32768 accesses"),
            Failed::Stuck(stuck) => write!(f, "{stuck}"),
        }
    }
}

impl From<Unread> for Failed {
    fn from(unread: Unread) -> Failed {
        Failed::Unread(unread)
    }
}

impl From<Stuck> for Failed {
    fn from(stuck: Stuck) -> Failed {
        Failed::Stuck(stuck)
    }
}
