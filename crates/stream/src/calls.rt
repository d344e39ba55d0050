// A fresh start, a delivery, and the end.
ghost use Rattle.std.specs.Prelude.{◌≡◌};
ghost use Rattle.transcript_spec.specs.Lists.{lists};
ghost use Rattle.transcript_lists.specs.Lent.{lists_in, SameLists};
ghost use Rattle.stream_spec.specs.Stream.{fresh_stream, end_answer, TookDelivery};

use crate::answers::{place_of, refuse, tell};
use stream_spec::{Stream, Streamed};
use transcript_lists::ListsMut;
use transcript_scan::{cut_off, fill_on, fresh_part, scan_on};
use words::Refusal;

// A stream before its first byte.
pub fn start_stream() -> Stream
    ensures { result ≡ fresh_stream }
{
    Stream {
        part: fresh_part(),
        from: 0,
        taken: 0,
        ended: false,
    }
}

// The bytes that come next. The entries of the good records that they finish go to the first places of the four lists. Nothing is put
// there before all of these are known to fit; a bad record behind them is told when they are handed out.
fn take(st: Stream, bytes: &[u8], list: &mut ListsMut<'_>) -> Streamed
    ensures same { SameLists list.old list.new }
    ensures took { TookDelivery st bytes.now (lists_in list.old) result (lists_in list.new) }
{
    if st.ended {
        return refuse(Refusal::StreamEnded, st);
    }
    let left = 4294967295 - st.taken;
    if (left as usize) < bytes.len() {
        return refuse(Refusal::StreamTooLong, st);
    }
    let found = scan_on(st.part, bytes);
    if list.len() < found.entries {
        return refuse(Refusal::ListTooSmall, st);
    }
    fill_on(st.part, bytes, list);
    tell(st, found)
}

// A delivery, taken into the four lists, which hold as many entries as the shortest of them.
pub fn take_delivery(
    st: Stream,
    bytes: &[u8],
    kinds: &mut [u32],
    registers: &mut [u32],
    lanes: &mut [u32],
    words: &mut [u32],
) -> Streamed
    ensures { TookDelivery st bytes.now
        (lists kinds.old registers.old lanes.old words.old)
        result (lists kinds.new registers.new lanes.new words.new) }
{
    take(
        st,
        bytes,
        &mut ListsMut {
            kinds,
            registers,
            lanes,
            words,
        },
    )
}

// The sender says that nothing follows: a record that is not whole is cut off.
pub fn end_stream(st: Stream) -> Streamed
    ensures { result ≡ end_answer st }
{
    if st.ended {
        return refuse(Refusal::StreamEnded, st);
    }
    let number = cut_off(st.part);
    Streamed {
        number,
        count: 0,
        place: place_of(number, st.from),
        stream: Stream { ended: true, ..st },
    }
}
