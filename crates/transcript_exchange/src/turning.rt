// Lines to bytes and bytes to lines, by way of the four lists: the input is judged first, and then lists and output are filled.
ghost use Rattle.transcript_spec.specs.Lists.{lists};
ghost use Rattle.transcript_exchange.specs.Turning.{ToBytes, ToLines};

use crate::NotTurned;
use crate::judging::{judge, judge_accesses, judge_room};
use transcript::{judge_bytes, read_transcript, write_transcript};
use transcript_lines::{judge_lines, put_lines, take_lines};
use transcript_lists::Lists;

// The transcript of a text's lines. The lists serve on the way: where the text is turned they hold its entries in their first places. A
// call that is not done leaves them, and the bytes, as they stood.
// (The four lists are lent one by one: with a `ListsMut` of them, lent on to the calls, the borrow checker didn't cover the function.)
pub fn lines_to_bytes(
    text: &[u8],
    kinds: &mut [u32],
    registers: &mut [u32],
    lanes: &mut [u32],
    words: &mut [u32],
    bytes: &mut [u8],
) -> Result<usize, NotTurned>
    ensures { ToBytes text.now
        (lists kinds.old registers.old lanes.old words.old)
        bytes.old result
        (lists kinds.new registers.new lanes.new words.new) bytes.new }
{
    let room = Lists {
        kinds,
        registers,
        lanes,
        words,
    }
    .len();
    let n = judge_lines(text, room)?;
    let written = judge_accesses(text, bytes.len())?;
    // What the lines are taken and written with is known already.
    let _ = take_lines(text, kinds, registers, lanes, words);
    let list = Lists {
        kinds,
        registers,
        lanes,
        words,
    }
    .first(n);
    write_transcript(list.kinds, list.registers, list.lanes, list.words, bytes);
    Ok(written)
}

// The lines of a transcript. The lists serve on the way, as above.
pub fn bytes_to_lines(
    bytes: &[u8],
    kinds: &mut [u32],
    registers: &mut [u32],
    lanes: &mut [u32],
    words: &mut [u32],
    text: &mut [u8],
) -> Result<usize, NotTurned>
    ensures { ToLines bytes.now
        (lists kinds.old registers.old lanes.old words.old)
        text.old result
        (lists kinds.new registers.new lanes.new words.new) text.new }
{
    let room = Lists {
        kinds,
        registers,
        lanes,
        words,
    }
    .len();
    let answer = judge_bytes(bytes, room);
    let put = judge(answer, judge_room(bytes, text.len()))?;
    read_transcript(bytes, kinds, registers, lanes, words);
    let list = Lists {
        kinds,
        registers,
        lanes,
        words,
    }
    .first(answer.count);
    // As above.
    let _ = put_lines(list.kinds, list.registers, list.lanes, list.words, text);
    Ok(put)
}
