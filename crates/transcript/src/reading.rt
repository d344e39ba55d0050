// The reader: a string of bytes to the four lists of a transcript's entries, or to a refusal with the lists as they were.
ghost use Rattle.std.specs.Prelude.{◌≡◌};
ghost use Rattle.transcript_spec.specs.Lists.{lists};
ghost use Rattle.transcript_spec.specs.Reading.{read_answer, ReadTranscript};
ghost use Rattle.transcript_lists.specs.Lent.{lists_in, SameLists};
ghost use Rattle.transcript.specs.ReaderParts.{answer_for};

use crate::answers::refuse;
use transcript_lists::ListsMut;
use transcript_scan::{Scanned, fill_on, fresh_part, scan};
use transcript_spec::Transcribed;
use words::Refusal;

// What is answered of a string, by what the scan found and by how many entries have room: a bad record comes before lists that are too
// small.
// (By numbers, 0 for none: `scanned` and `read_answer` have them so.)
#[tactic(auto, unfolding(crate::specs::ReaderParts::answer_for))]
fn answer_for(found: Scanned, room: usize) -> Transcribed
    ensures { result ≡ answer_for found room }
{
    if found.refusal != 0 {
        return refuse(found.refusal, found.place);
    }
    if room < found.entries {
        return refuse(u8::from(Refusal::ListTooSmall), 0);
    }
    Transcribed {
        number: 0,
        count: found.entries,
        place: 0,
    }
}

// What the reader answers of a string, where the lists have places for so many entries.
pub fn judge_bytes(bytes: &[u8], room: usize) -> Transcribed
    ensures { result ≡ read_answer bytes.now room }
{
    answer_for(scan(bytes), room)
}

// A transcript's entries, in the first places of the four lists. Nothing is put there before all records are known to be good and to fit.
fn read(bytes: &[u8], list: &mut ListsMut<'_>) -> Transcribed
    ensures same { SameLists list.old list.new }
    ensures read { ReadTranscript bytes.now (lists_in list.old) result (lists_in list.new) }
{
    let answer = judge_bytes(bytes, list.len());
    if answer.number != 0 {
        return answer;
    }
    fill_on(fresh_part(), bytes, list);
    answer
}

// A transcript's entries, in the first places of the four lists, which hold as many as the shortest of them.
pub fn read_transcript(
    bytes: &[u8],
    kinds: &mut [u32],
    registers: &mut [u32],
    lanes: &mut [u32],
    words: &mut [u32],
) -> Transcribed
    ensures { ReadTranscript bytes.now
        (lists kinds.old registers.old lanes.old words.old)
        result (lists kinds.new registers.new lanes.new words.new) }
{
    read(
        bytes,
        &mut ListsMut {
            kinds,
            registers,
            lanes,
            words,
        },
    )
}
