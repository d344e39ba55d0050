// A read behind the bytes that are held.
ghost use Rattle.std.specs.Prelude.{◌≡◌, ◌-◌, ◌≤◌, length};
ghost use Rattle.input.specs.Filling.{answered, FilledBehind};

use crate::Unread;
use std::io;
use std::io::{Read, Stdin};

// What a read answered that was made behind the first `held` bytes of a buffer.
#[tactic(auto, unfolding(crate::specs::Filling::answered))]
pub(crate) fn judge(got: io::Result<usize>, held: usize, buffer: &[u8]) -> Result<usize, Unread>
    requires { held ≤ length buffer.now }
    ensures { result ≡ answered got held (length buffer.now - held) }
{
    match got {
        Ok(n) => Ok(held + n.min(buffer.len() - held)),
        Err(_) => Err(Unread { all: held }),
    }
}

// One read behind the first `held` bytes of a buffer, which stay. It answers how many bytes there are then: no more than before where the
// input has ended. Without room for a byte more nothing is read, and it has failed.
pub fn fill(buffer: &mut [u8], held: usize, mut from: Stdin) -> Result<usize, Unread>
    ensures { FilledBehind buffer.old held result buffer.new }
{
    if buffer.len() <= held {
        return Err(Unread { all: held });
    }
    let got = from.read(&mut buffer[held..]);
    judge(got, held, buffer)
}
