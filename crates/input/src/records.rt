// A script of records, all of one length.
ghost use Rattle.std.specs.Prelude.{◌≡◌, min, length};
ghost use Rattle.std.specs.Iterator.{at_most};

use crate::{Unread, fill_whole};
use std::io::{Stdin, Stdout};

// Reads the next record of a script, as many bytes as are lent, and answers whether it came whole. Bytes that are no whole record end a
// script too, and are told of. For a caller without handles: it reads standard input and writes standard output by the kit's `io`.
pub fn read_record(bytes: &mut [u8]) -> bool
    ensures { length bytes.new ≡ length bytes.old }
{
    let got = io::read_full(0, bytes);
    if got == bytes.len() {
        return true;
    }
    if 0 < got {
        io::write_all(1, b"bad script\n");
    }
    false
}

// The same by handles. (It lends the bytes and answers no array, so that it takes a record of any length; `Records` has the array.)
// (A bool and no Option: what came stands in the bytes that are lent, and `read_record_from_contract` speaks of their length alone.)
pub fn read_record_from(bytes: &mut [u8], from: Stdin, to: Stdout) -> bool
    ensures { length bytes.new ≡ length bytes.old }
{
    let (Ok(got) | Err(Unread { all: got })) = fill_whole(bytes, from);
    if got == bytes.len() {
        return true;
    }
    if 0 < got {
        // What standard output doesn't take is let go.
        let _ = println!(to; "bad script");
    }
    false
}

// The records of a script that are still to come. A proved loop has to end, and nothing says that the input does: the turns are counted
// down, from a number that no run uses up.
#[derive(Drop)]
pub struct Records<const N: usize> {
    from: Stdin,
    to: Stdout,
    turns: u64,
}

impl<const N: usize> Iterator for Records<N> {
    type Item = [u8; N];

    ghost remaining = { λ s. at_most s.turns };

    fn next(&mut self) -> Option<[u8; N]> {
        if self.turns == 0 {
            return None;
        }
        self.turns -= 1;
        let mut bytes = [0u8; N];
        if read_record_from(&mut bytes, self.from, self.to) {
            Some(bytes)
        } else {
            None
        }
    }

    // How many are still to come, nobody knows.
    fn size_hint(&self) -> (usize, Option<usize>) {
        (0, None)
    }
}

// All records of a script, as they come.
pub fn all_records<const N: usize>(from: Stdin, to: Stdout) -> Records<N>
    ensures { result.turns ≡ 0xFFFFFFFFFFFFFFFF }
{
    Records {
        from,
        to,
        turns: u64::MAX,
    }
}

// How many of so many places are lent, where a byte of a record says b: all of them if it says more.
pub fn places_lent(b: u8, places: usize) -> usize
    ensures { result ≡ min b places }
{
    usize::from(b).min(places)
}
