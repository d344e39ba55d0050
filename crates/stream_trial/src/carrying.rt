// A record of a script, carried out.
ghost use Rattle.std.specs.Prelude.{◌≡◌};
ghost use Rattle.transcript_spec.specs.Lists.{lists};
ghost use Rattle.stream_spec.specs.Stream.{streamed};
ghost use Rattle.stream_trial.specs.Record.{started_at, blank};
ghost use Rattle.stream_trial.specs.CarriedOut.{Delivered, CarriedOut};

use crate::reading::{number_in, string_lent};
use input::places_lent;
use stream::{end_stream, start_stream, take_delivery};
use stream_spec::{Stream, Streamed};

// Each list before each record.
const BLANK: [u32; 6] = [0xEEEEEEEE; 6];

// What a record leaves: what the call answered, with the stream, and the four lists.
// (transcript_trial has one like it, with another answer: no crate below both programs is about what a trial leaves.)
#[derive(Clone, Copy)]
pub(crate) struct Left {
    pub answer: Streamed,
    pub kinds: [u32; 6],
    pub registers: [u32; 6],
    pub lanes: [u32; 6],
    pub words: [u32; 6],
}

// A fresh start; with a number above 0, as if so many bytes had come already.
fn start_from(n: u32) -> Streamed
    ensures { result ≡ streamed 0 0 0 (started_at n) }
{
    let fresh = start_stream();
    if n == 0 {
        return Streamed {
            number: 0,
            count: 0,
            place: 0,
            stream: fresh,
        };
    }
    Streamed {
        number: 0,
        count: 0,
        place: 0,
        stream: Stream {
            from: n,
            taken: n,
            ..fresh
        },
    }
}

// The record's delivery. What it is lent of each list is its first places, as many as the record says.
fn deliver(st: Stream, bytes: &[u8; 36]) -> Left
    ensures { Delivered st bytes.now blank result.answer (lists result.kinds result.registers result.lanes result.words) }
{
    let k = places_lent(bytes[2], 6);
    let r = places_lent(bytes[3], 6);
    let l = places_lent(bytes[4], 6);
    let w = places_lent(bytes[5], 6);
    let mut kinds = BLANK;
    let mut registers = BLANK;
    let mut lanes = BLANK;
    let mut words = BLANK;
    let answer = take_delivery(
        st,
        string_lent(bytes),
        &mut kinds[..k],
        &mut registers[..r],
        &mut lanes[..l],
        &mut words[..w],
    );
    Left {
        answer,
        kinds,
        registers,
        lanes,
        words,
    }
}

// What a call leaves that is lent no list.
fn leave_lists(answer: Streamed) -> Left
    ensures { (result.answer ≡ answer) × (lists result.kinds result.registers result.lanes result.words ≡ blank) }
{
    Left {
        answer,
        kinds: BLANK,
        registers: BLANK,
        lanes: BLANK,
        words: BLANK,
    }
}

// The record's call, whichever of the three it is.
pub(crate) fn carry_record(st: Stream, bytes: &[u8; 36]) -> Left
    ensures { CarriedOut st bytes.now blank result.answer (lists result.kinds result.registers result.lanes result.words) }
{
    match bytes[0] % 3 {
        0 => leave_lists(start_from(number_in(bytes))),
        1 => deliver(st, bytes),
        _ => leave_lists(end_stream(st)),
    }
}
