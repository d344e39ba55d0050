// What will become of an input, from the input alone: it is judged whole before a list or a byte of the output is touched.
ghost use Rattle.std.specs.Prelude.{◌≡◌, length};
ghost use Rattle.transcript_spec.specs.Reading.{entries_read};
ghost use Rattle.transcript_lines.specs.Lines.{text_of};
ghost use Rattle.transcript_lines.specs.Taking.{taking};
ghost use Rattle.transcript_exchange.specs.Turning.{by_answer, entries_written, done_if_fits};

use crate::NotTurned;
use listing::good_lines;
use transcript::judge_entry;
use transcript_lines::{entry_of, line_size};
use transcript_scan::{fresh_part, take_byte};
use transcript_spec::{Step, Transcribed};

// What a reader's answer means; `done` where it refuses nothing.
#[tactic(auto, unfolding(crate::specs::Turning::by_answer))]
pub(crate) fn judge(o: Transcribed, done: Result<usize, NotTurned>) -> Result<usize, NotTurned>
    ensures { result ≡ by_answer o done }
{
    match o.number {
        0 => done,
        24 => Err(NotTurned::TooMany),
        number => Err(NotTurned::Refused(number, o.place)),
    }
}

// What becomes of n bytes, where there is room for so many.
fn fit(n: usize, room: usize) -> Result<usize, NotTurned>
    ensures { result ≡ done_if_fits n room }
{
    if room < n {
        return Err(NotTurned::TooMany);
    }
    Ok(n)
}

// What becomes of the accesses of a text's good lines, up to its first bad one, with so many bytes of output: the first that has no
// record is refused, or the records are counted. A line is longer than its record, so that no sum can wrap.
pub(crate) fn judge_accesses(text: &[u8], room: usize) -> Result<usize, NotTurned>
    ensures { result ≡ entries_written (taking text.now).entries room }
{
    let mut count: usize = 0;
    let mut wanted: usize = 0;
    for a in good_lines(text) {
        match judge_entry(entry_of(a)) {
            Ok(bytes) => wanted += bytes,
            Err(refusal) => return Err(NotTurned::Refused(u8::from(refusal), count)),
        }
        count += 1;
    }
    fit(wanted, room)
}

// What becomes of the lines of a string's good records, up to its first bad one, with so many bytes of output. What is left of the room
// is counted, and not the bytes: no sum can wrap.
pub(crate) fn judge_room(bytes: &[u8], room: usize) -> Result<usize, NotTurned>
    ensures { result ≡ done_if_fits (length (text_of (entries_read bytes.now))) room }
{
    let mut part = fresh_part();
    let mut left = room;
    for &b in bytes {
        match take_byte(part, b) {
            Step::Goes(p) => {
                part = p;
            }
            Step::Whole(e) => {
                part = fresh_part();
                let size = line_size(e);
                if left < size {
                    return Err(NotTurned::TooMany);
                }
                left -= size;
            }
            Step::Bad(_) => {
                break;
            }
        }
    }
    Ok(room - left)
}
