// Read after read into a buffer.
ghost use Rattle.input.specs.Filling.{FilledWhole};

use crate::{Unread, fill};
use std::io::Stdin;

// Reads until the buffer is full, the input has ended or a read fails, and answers how many bytes there are then. Where there is room left
// and no read has failed, the input has ended; a buffer that is full has not failed, and more may follow. A read that fails brings nothing,
// as the input's end does, so either is the last. (The library's `read_exact` won't do: where the input has ended it doesn't say how much
// there is, and `FilledWhole` does.)
pub fn fill_whole(buffer: &mut [u8], from: Stdin) -> Result<usize, Unread>
    ensures { FilledWhole buffer.old result buffer.new }
{
    let mut all = 0;
    while all < buffer.len() {
        let now = fill(buffer, all, from)?;
        if now == all {
            return Ok(all);
        }
        all = now;
    }
    Ok(all)
}
