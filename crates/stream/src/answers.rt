// What a call answers, by what it found.
ghost use Rattle.std.specs.Prelude.{◌≡◌, ◌+◌, ◌≤◌};
ghost use Rattle.stream_spec.specs.Stream.{streamed, place_of};
ghost use Rattle.words.specs.Refusals.{refusal_number};
ghost use Rattle.stream.specs.Parts.{Within, from_after, told_of};

use stream_spec::{Stream, Streamed};
use transcript_scan::ScannedOn;
use words::Refusal;

// The answer of a call that changes nothing.
pub(crate) fn refuse(refusal: Refusal, st: Stream) -> Streamed
    ensures { result ≡ streamed (refusal_number refusal) 0 0 st }
{
    Streamed {
        number: u8::from(refusal),
        count: 0,
        place: 0,
        stream: st,
    }
}

// The place that a refusal names.
// (A number, 0 for none, as the scan finds it: the definition `place_of` goes by it, and answers 0 under it.)
pub(crate) fn place_of(number: u8, from: u32) -> u32
    ensures { result ≡ place_of number from }
{
    if number == 0 {
        return 0;
    }
    from
}

// Where in the stream the record begins that a delivery came to: where it was begun, unless the delivery finished one.
fn from_after(st: Stream, found: ScannedOn) -> u32
    requires { st.taken + found.place ≤ 4294967295 }
    ensures { result ≡ from_after st found }
{
    if found.entries == 0 {
        return st.from;
    }
    st.taken + found.place as u32
}

// The answer to a delivery that was taken: the scan counts places from the delivery's start, the answer from the stream's.
pub(crate) fn tell(st: Stream, found: ScannedOn) -> Streamed
    requires { Within st found }
    ensures { result ≡ told_of st found }
{
    let from = from_after(st, found);
    Streamed {
        number: found.refusal,
        count: found.entries,
        place: place_of(found.refusal, from),
        stream: Stream {
            part: found.part,
            from,
            taken: st.taken + found.next as u32,
            ended: found.refusal != 0,
        },
    }
}
