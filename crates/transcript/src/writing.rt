// The writer: a list of accesses to the bytes of its transcript. Document 02, request (ii).
ghost use Rattle.std.specs.Prelude.{◌≡◌};
ghost use Rattle.transcript_spec.specs.Format.{transcript_of};
ghost use Rattle.transcript_spec.specs.Lists.{lists, entries_in, over};
ghost use Rattle.transcript_spec.specs.Writing.{WroteTranscript};
ghost use Rattle.transcript_lists.specs.Lent.{lists_of};
ghost use Rattle.transcript.specs.WriterParts.{judged, judged_numbers, Writable};

use crate::answers::refuse;
use crate::records::{judge_entry, put_record};
use transcript_lists::Lists;
use transcript_spec::Transcribed;
use words::Refusal;

// The first bad entry of a list: why it is refused, and its index.
#[derive(Clone, Copy)]
struct FirstBad {
    refusal: Refusal,
    place: usize,
}

// The entries, judged one after the other up to the first bad one: how many bytes their records have, where none is bad.
fn judge(list: Lists<'_>) -> Result<usize, FirstBad>
    ensures { judged_numbers result ≡ judged 0 0 (entries_in (lists_of list.entry)) }
{
    let mut wanted = 0;
    for (i, e) in list.entries().enumerate() {
        match judge_entry(e) {
            Ok(size) => wanted += size,
            Err(refusal) => return Err(FirstBad { refusal, place: i }),
        }
    }
    Ok(wanted)
}

// Puts the records of the entries at the front of the bytes; the bytes behind them stay.
fn put_records(list: Lists<'_>, bytes: &mut [u8])
    requires { Writable (lists_of list) bytes.old }
    ensures { bytes.new ≡ over (transcript_of (entries_in (lists_of list.entry))) bytes.old }
{
    let mut at = 0;
    for e in list.entries() {
        at = put_record(bytes, at, e);
    }
}

// Writes a list of accesses as the bytes of its transcript: the list's length is the shortest of the four. It is judged whole before
// a byte is written.
pub fn write_transcript(
    kinds: &[u32],
    registers: &[u32],
    lanes: &[u32],
    words: &[u32],
    bytes: &mut [u8],
) -> Transcribed
    ensures { WroteTranscript
        (lists kinds.now registers.now lanes.now words.now) bytes.old
        result bytes.new }
{
    let list = Lists {
        kinds,
        registers,
        lanes,
        words,
    };
    let wanted = match judge(list) {
        Ok(wanted) => wanted,
        Err(bad) => return refuse(u8::from(bad.refusal), bad.place),
    };
    if bytes.len() < wanted {
        return refuse(u8::from(Refusal::ListTooSmall), 0);
    }
    put_records(list, bytes);
    Transcribed {
        number: 0,
        count: wanted,
        place: 0,
    }
}
