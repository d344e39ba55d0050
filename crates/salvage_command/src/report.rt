// What is said on standard error: the report, when all of the input is read, or why there is none.

ghost use Rattle.salvage_command.specs.Turning.{Tells};

use input::Unread;
use output::Stuck;
use std::fmt;
use std::io::Stderr;

// The records that were kept, the bytes that were left, and what stopped it: the number that `salvage_transcript` answers, since the
// report says that number.
#[derive(Clone, Copy, Debug)]
pub(crate) struct Report {
    pub(crate) kept: u64,
    pub(crate) left: u64,
    pub(crate) stop: u8,
}

// Why it stopped, in document 02's words, to the end of the line.
fn why(stop: u8) -> &'static str {
    match stop {
        0 => ": nothing bad\n",
        20 => ": number cut off or missing\n",
        21 => ": leading zero group\n",
        22 => ": head over 31 or word over 65,535\n",
        23 => ": lanes 0\n",
        _ => "",
    }
}

// The report. Only that of an input that came in some pieces is said. Where standard error takes nothing there is nobody to tell.
pub(crate) fn say(r: Report, to: Stderr)
    requires { Tells r }
{
    let Report { kept, left, stop } = r;
    let why = why(stop);
    let _ = eprint!(to; "salvage: records kept {kept}, bytes left {left}, stopped by {stop}{why}");
}

// Why there is no report.
#[derive(Clone, Copy, Debug, PartialEq, Eq)]
pub(crate) enum Failed {
    // The input can't be read to its end: nobody knows what would have followed.
    Unread(Unread),
    // What was salvaged can't be written: nobody reads it any more, or the output takes no more for another reason.
    Stuck(Stuck),
}

impl fmt::Display for Failed {
    fn fmt<W: fmt::Write>(&self, f: &mut fmt::Formatter<W>) -> fmt::Result {
        match self {
            Failed::Unread(unread) => write!(f, "{unread}"),
            Failed::Stuck(stuck) => write!(f, "{stuck}"),
        }
    }
}

impl From<Unread> for Failed {
    fn from(unread: Unread) -> Failed {
        Failed::Unread(unread)
    }
}

impl From<Stuck> for Failed {
    fn from(stuck: Stuck) -> Failed {
        Failed::Stuck(stuck)
    }
}
