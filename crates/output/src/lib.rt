// Output, as the commands write it: the whole of a text, or why not. A reader of a pipe who has gone is told apart from an output that
// takes no more.
#![tactic(auto)]

ghost use Rattle.std.specs.Prelude.{◌≡◌};
ghost use Rattle.output.specs.Writing.{Wrote};

use std::error::Error;
use std::fmt;
use std::io::{ErrorKind, Write};

// Why a text was not written whole.
#[derive(Clone, Copy, Debug, PartialEq, Eq)]
pub enum Stuck {
    // Nobody reads what would follow.
    ReaderGone,
    // It takes no more for another reason, such as a full disk.
    Refused,
}

impl fmt::Display for Stuck {
    fn fmt<W: fmt::Write>(&self, f: &mut fmt::Formatter<W>) -> fmt::Result {
        match self {
            Stuck::ReaderGone => write!(f, "the output's reader has gone"),
            Stuck::Refused => write!(f, "the output takes no more"),
        }
    }
}

impl Error for Stuck {}

// Writes the text to a writer, by as many writes as it takes. Where one fails, or takes nothing, that is the last. The library's own
// `write_all` won't do: its contract says nothing of what the writer holds where it fails, and `Wrote` does.
pub fn write_all<W: Write>(text: &[u8], to: &mut W) -> Result<(), Stuck>
    ensures { Wrote text.now (W.contents to.old) result (W.contents to.new) }
{
    let mut rest = text;
    while !rest.is_empty() {
        match to.write(rest) {
            Ok(0) => return Err(Stuck::Refused),
            Ok(n) => rest = &rest[n..],
            Err(e) if e.kind() == ErrorKind::BrokenPipe => return Err(Stuck::ReaderGone),
            Err(_) => return Err(Stuck::Refused),
        }
    }
    Ok(())
}
