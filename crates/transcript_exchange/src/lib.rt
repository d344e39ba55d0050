// A list of accesses from one of its forms to the other: the lines of `portlist`, and the bytes of a transcript. Document 02, request
// (ii): "The benches swap lists of host accesses as text. We want the compact form".
#![tactic(auto)]

ghost use Rattle.std.specs.Prelude.{◌≡◌};
ghost use Rattle.transcript_exchange.specs.Turning.{not_turned};

mod judging;
mod turning;

use transcript_lines::NotTaken;
pub use turning::{bytes_to_lines, lines_to_bytes};

// Why an input is not turned.
#[derive(Clone, Copy, Debug, PartialEq, Eq)]
pub enum NotTurned {
    // A line is bad: so many good ones stand before it.
    BadLine(usize),
    // An access or a record is refused with this number: the access's index among the lines, or the record's first byte.
    Refused(u8, usize),
    // There are more accesses than the lists have places, or more bytes than the output.
    TooMany,
}

impl From<NotTaken> for NotTurned {
    ghost from_gives = { λ not e. e ≡ not_turned not };

    fn from(not: NotTaken) -> NotTurned
        ensures { result ≡ not_turned not }
    {
        match not {
            NotTaken::BadLine(before) => NotTurned::BadLine(before),
            NotTaken::NoPlaces => NotTurned::TooMany,
        }
    }
}
